// A turned box by its vectors.
ghost use Rattle.std.specs.Prelude.{◌≡◌};

use types::{Obb2, Vec2};

// The centre and the half edges. One `Frame` for the plane and for space would hold its edges as an array, and u and v would lose their names.
#[derive(Clone, Copy, Debug, PartialEq)]
pub struct Frame {
    pub c: Vec2,
    pub u: Vec2,
    pub v: Vec2,
}

impl From<Obb2> for Frame {
    ghost use Rattle.obb2_corners.specs.Corners.{frame_of};

    ghost from_gives = { λ o r. r ≡ frame_of o };

    fn from(o: Obb2) -> Frame {
        Frame {
            c: Vec2 { x: o.cx, y: o.cy },
            u: Vec2 { x: o.ux, y: o.uy },
            v: Vec2 { x: o.vx, y: o.vy },
        }
    }
}
