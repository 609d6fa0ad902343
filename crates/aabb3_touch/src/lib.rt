// Whether a box has a point, and whether two boxes touch. A box and a point stand side by side, as in the source, in C and in ./ask.
#![tactic(auto)]

ghost use Rattle.std.specs.Prelude.{◌≡◌};
ghost use Rattle.aabb3_touch.specs.Touch.{is_active_of, outside_of, is_contain_of, are_apart_of, is_intersect_of};

use axes::apart;
use types::{Aabb3, Range, Vec3};

// Whether the box is ordered in x. Its y and z are not looked at.
pub fn is_active(b: Aabb3) -> bool
    ensures { result ≡ is_active_of b }
{
    b.x_range().is_ordered()
}

// Whether a coordinate is below a range or above it. A NaN is neither.
fn outside(range: Range, at: f32) -> bool
    ensures { result ≡ outside_of range at }
{
    (at < range.low) | (at > range.high)
}

// Whether p is in the box, faces included: outside in no dimension.
pub fn is_contain(b: Aabb3, p: Vec3) -> bool
    ensures { result ≡ is_contain_of b p }
{
    !(outside(b.x_range(), p.x) | outside(b.y_range(), p.y) | outside(b.z_range(), p.z))
}

// Whether the boxes lie apart in some dimension.
fn are_apart(a: Aabb3, b: Aabb3) -> bool
    ensures { result ≡ are_apart_of a b }
{
    apart(a.x_range(), b.x_range())
        | apart(a.y_range(), b.y_range())
        | apart(a.z_range(), b.z_range())
}

// Whether two boxes, both ordered in x, meet, faces included. A NaN in y or z parts nothing.
pub fn is_intersect(a: Aabb3, b: Aabb3) -> bool
    ensures { result ≡ is_intersect_of a b }
{
    is_active(a) & is_active(b) & !are_apart(a, b)
}
