// Whether a turned box of space includes a point.
#![tactic(auto)]

ghost use Rattle.std.specs.Prelude.{◌≡◌};
ghost use Rattle.obb3_point.specs.Point.{beyond_of, is_include_point_of};

use obb3_corners::Frame;
use types::{Obb3, Vec3, Vector};

// Whether d, seen along the half edge e, lies past either end of the whole edge, stretched by s. A NaN lies past neither.
#[tactic(auto, unfolding(crate::specs::Point::beyond_of))]
fn beyond(d: Vec3, e: Vec3, s: f32) -> bool
    ensures { result ≡ beyond_of d e s }
{
    float::abs(e.dot(d)) > e.dot(e) * s
}

// Whether p lies past no end of the edges, stretched by 1 + eps: a NaN counts as inside, as in the Rust.
#[tactic(auto, unfolding(crate::specs::Point::is_include_point_of))]
pub fn is_include_point(o: Obb3, p: Vec3, eps: f32) -> bool
    ensures { result ≡ is_include_point_of o p eps }
{
    let Frame { c, u, v, w } = Frame::from(o);
    let d = p - c;
    let s = 1.0 + eps;
    !(beyond(d, u, s) | beyond(d, v, s) | beyond(d, w, s))
}
