// A turned and an upright box. It has a static library of its own, apart from c_obb2, so that the search for an axis has one caller in each and LLVM
// inlines it.
#![tactic(auto)]

ghost use Rattle.obb2_intersect.specs.Promise.{IsIntersectAabb2Promise};

use types::{Aabb2, Obb2};

// Whether a turned and an upright box meet: no exactly if on some axis (x, y, and those across u and v) the computed projections of the corners of
// one lie strictly below those of the other. Ranges whose computed ends are equal overlap. Rounding parts some boxes that touch, and joins some that
// lie close. Across a half edge of length 0 every finite corner projects to 0, so boxes that only that axis would part count as meeting. Projections
// that are NaN are left out. Where a box has no others on an axis, that axis parts it from the other box, unless that one reaches from -infinity to
// +infinity there.
// Example: (0, 0, 1, 1, -1, 1), (1, 1, 3, 3) gives true.
#[unsafe(no_mangle)]
pub extern "C" fn bgz_obb2_is_intersect_aabb2(o: Obb2, b: Aabb2) -> bool
    ensures { IsIntersectAabb2Promise o b result }
{
    obb2_intersect::is_intersect_aabb2(o, b)
}
