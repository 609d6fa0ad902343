// The corners of boxes of the plane, turned and upright.
#![tactic(auto)]

mod frame;

ghost use Rattle.std.specs.Prelude.{◌≡◌};
ghost use Rattle.obb2_corners.specs.Corners.{corners_of, upright_corners_of};

pub use frame::Frame;
use types::{Aabb2, Obb2, Vec2};

// Centre + u + v, centre - u + v, centre - u - v, centre + u - v: each joined to the next by an edge, and the last to the first. Written out, as in
// space, where the corners stand in another order.
pub fn corner_points(o: Obb2) -> [Vec2; 4]
    ensures { result ≡ corners_of o }
{
    let Frame { c, u, v } = Frame::from(o);
    [c + u + v, c - u + v, c - u - v, c + u - v]
}

pub fn upright_corners(b: Aabb2) -> [Vec2; 4]
    ensures { result ≡ upright_corners_of b }
{
    [
        Vec2 {
            x: b.min_x,
            y: b.min_y,
        },
        Vec2 {
            x: b.max_x,
            y: b.min_y,
        },
        Vec2 {
            x: b.min_x,
            y: b.max_y,
        },
        Vec2 {
            x: b.max_x,
            y: b.max_y,
        },
    ]
}
