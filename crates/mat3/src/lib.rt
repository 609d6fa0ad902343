// 3 by 3 matrices as homogeneous transforms of the plane.
#![tactic(auto, unfolding(crate::specs::Values::transform_homogeneous_of))]

ghost use Rattle.std.specs.Prelude.{◌≡◌};
ghost use Rattle.mat3.specs.Values.{transform_homogeneous_of};

use types::{Mat3, Vec2};

// The point's image, or none where the computed denominator is zero.
pub fn transform_homogeneous(m: Mat3, p: Vec2) -> Option<Vec2>
    ensures { result ≡ transform_homogeneous_of m p }
{
    let w = m.m20 * p.x + m.m21 * p.y + m.m22;
    if w == 0.0 {
        return None;
    }
    let x = m.m00 * p.x + m.m01 * p.y + m.m02;
    let y = m.m10 * p.x + m.m11 * p.y + m.m12;
    Some(Vec2 { x: x / w, y: y / w })
}
