// The corners of a turned box of space.
#![tactic(auto)]

mod frame;

ghost use Rattle.std.specs.Prelude.{◌≡◌};
ghost use Rattle.obb3_corners.specs.Corners.{corners_of};

pub use frame::Frame;
use types::{Obb3, Vec3};

// Centre - u - v, + u - v, + u + v, - u + v: each - w, and then each + w. So four of one face, each joined to the next by an edge and the last to
// the first, then those of the opposite face in the same order.
pub fn corner_points(o: Obb3) -> [Vec3; 8]
    ensures { result ≡ corners_of o }
{
    let Frame { c, u, v, w } = Frame::from(o);
    let m0 = c - u - v;
    let m1 = c + u - v;
    let m2 = c + u + v;
    let m3 = c - u + v;
    [
        m0 - w,
        m1 - w,
        m2 - w,
        m3 - w,
        m0 + w,
        m1 + w,
        m2 + w,
        m3 + w,
    ]
}
