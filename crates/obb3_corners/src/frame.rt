// A turned box of space by its vectors.
ghost use Rattle.std.specs.Prelude.{◌≡◌};

use types::{Obb3, Vec3};

// The centre and the half edges. One `Frame` for the plane and for space would hold its edges as an array: then u, v and w lose their names.
#[derive(Clone, Copy, Debug, PartialEq)]
pub struct Frame {
    pub c: Vec3,
    pub u: Vec3,
    pub v: Vec3,
    pub w: Vec3,
}

impl From<Obb3> for Frame {
    ghost use Rattle.obb3_corners.specs.Corners.{frame_of};

    ghost from_gives = { λ o r. r ≡ frame_of o };

    fn from(o: Obb3) -> Frame {
        Frame {
            c: Vec3 {
                x: o.cx,
                y: o.cy,
                z: o.cz,
            },
            u: Vec3 {
                x: o.ux,
                y: o.uy,
                z: o.uz,
            },
            v: Vec3 {
                x: o.vx,
                y: o.vy,
                z: o.vz,
            },
            w: Vec3 {
                x: o.wx,
                y: o.wy,
                z: o.wz,
            },
        }
    }
}
