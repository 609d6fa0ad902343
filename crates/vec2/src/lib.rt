// Points and vectors of the plane.
#![tactic(auto)]

ghost use Rattle.std.specs.Prelude.{◌≡◌};
ghost use Rattle.vec2.specs.Values.{sub_of, dot_of, squared_length_of, length_of};

use types::{Vec2, Vector};

// a - b, by component.
pub fn sub(a: Vec2, b: Vec2) -> Vec2
    ensures { result ≡ sub_of a b }
{
    a - b
}

pub fn dot(a: Vec2, b: Vec2) -> f32
    ensures { result ≡ dot_of a b }
{
    a.dot(b)
}

pub fn squared_length(p: Vec2) -> f32
    ensures { result ≡ squared_length_of p }
{
    p.dot(p)
}

pub fn length(p: Vec2) -> f32
    ensures { result ≡ length_of p }
{
    root::sqrt(p.dot(p))
}
