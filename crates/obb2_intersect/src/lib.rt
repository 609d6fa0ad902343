// Whether a turned box meets another box of the plane: no exactly if some axis separates their corners.
#![tactic(auto)]

ghost use Rattle.std.specs.Prelude.{◌≡◌};
ghost use Rattle.obb2_intersect.specs.Intersect.{across_of};
ghost use Rattle.obb2_intersect.specs.Promise.{IsIntersectAabb2Promise, IsIntersectObb2Promise};

use axes::first_separating;
use obb2_corners::{Frame, corner_points, upright_corners};
use types::{Aabb2, Obb2, Vec2};

// The axis at a right angle to an edge.
fn across(e: Vec2) -> Vec2
    ensures { result ≡ across_of e.x e.y }
{
    Vec2 { x: -e.y, y: e.x }
}

// Whether a turned and an upright box meet. Ranges whose computed ends are equal overlap.
pub fn is_intersect_aabb2(o: Obb2, b: Aabb2) -> bool
    ensures { IsIntersectAabb2Promise o b result }
{
    let Frame { u, v, .. } = Frame::from(o);
    let axes = [
        Vec2 { x: 1.0, y: 0.0 },
        Vec2 { x: 0.0, y: 1.0 },
        across(u),
        across(v),
    ];
    first_separating(&corner_points(o), &upright_corners(b), &axes).is_none()
}

// Whether two turned boxes meet, whichever comes first.
pub fn is_intersect_obb2(a: Obb2, b: Obb2) -> bool
    ensures { IsIntersectObb2Promise a b result }
{
    let p = Frame::from(a);
    let q = Frame::from(b);
    let axes = [across(p.u), across(p.v), across(q.u), across(q.v)];
    first_separating(&corner_points(a), &corner_points(b), &axes).is_none()
}
