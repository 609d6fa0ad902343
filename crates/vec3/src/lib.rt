// Products and lengths of vectors of space.
#![tactic(auto)]

ghost use Rattle.std.specs.Prelude.{◌≡◌};
ghost use Rattle.vec3.specs.Values.{cross_of, norm_of};

use types::{Vec3, Vector};

// The cross product: at a right angle to both, but for rounding.
pub fn cross(a: Vec3, b: Vec3) -> Vec3
    ensures { result ≡ cross_of a b }
{
    Vec3 {
        x: a.y * b.z - a.z * b.y,
        y: a.z * b.x - a.x * b.z,
        z: a.x * b.y - a.y * b.x,
    }
}

pub fn norm(v: Vec3) -> f32
    ensures { result ≡ norm_of v }
{
    root_guess::sqrt(v.dot(v))
}
