// Turned boxes.
#![tactic(auto)]

ghost use Rattle.std.specs.Prelude.{◌≡◌};
ghost use Rattle.c_answers.specs.Answers.{point_answer_of};
ghost use Rattle.obb2.specs.Corners.{corners_of};
ghost use Rattle.c_obb2.specs.Corners.{points_of};
ghost use Rattle.obb2.specs.Point.{is_include_point2_of, nearest_point2_of};
ghost use Rattle.obb2.specs.Promise.{IsIntersectObb2Promise};

use c_answers::PointAnswer;
use types::{Obb2, Vec2};

// Four corners, each joined to the next by an edge, and the last to the first.
#[repr(C)]
#[derive(Clone, Copy, Debug, PartialEq)]
pub struct Corners {
    // c + u + v.
    pub p0: Vec2,
    // c - u + v.
    pub p1: Vec2,
    // c - u - v.
    pub p2: Vec2,
    // c + u - v.
    pub p3: Vec2,
}

// c + u + v, c - u + v, c - u - v, c + u - v.
// Example: (1, 1, 2, 0, 0, 1) gives ((3, 2), (-1, 2), (-1, 0), (3, 0)).
#[unsafe(no_mangle)]
pub extern "C" fn bgz_obb2_corner_points(o: Obb2) -> Corners
    ensures { points_of result ≡ corners_of o }
{
    let [p0, p1, p2, p3] = obb2::corner_points(o);
    Corners { p0, p1, p2, p3 }
}

// Whether `p` is in `o`, edges included, by its dot products with u and v, as computed. Where u and v are at a right angle and no product overflows or
// underflows, that is the box, but for rounding. Else it is another region. A product that is a NaN counts as inside, and a half edge of length 0 does
// not bound its direction.
// Example: (0, 0, 2, 0, 0, 1), (1, 1) gives true.
#[unsafe(no_mangle)]
pub extern "C" fn bgz_obb2_is_include_point2(o: Obb2, p: Vec2) -> bool
    ensures { result ≡ is_include_point2_of o p }
{
    obb2::is_include_point2(o, p)
}

// `p` itself if `obb2::is_include_point2` says so; else the nearest of the points that `edge2::nearest_to_point` gives for the four edges, the first of
// equals.
// Refused: `NAN_LENGTH` if `p` is not included and its distance to one of the four is a NaN.
// Example: (0, 0, 2, 0, 0, 1), (5, 0) gives (2, 0).
#[unsafe(no_mangle)]
pub extern "C" fn bgz_obb2_nearest_point2(o: Obb2, p: Vec2) -> PointAnswer
    ensures { result ≡ point_answer_of (nearest_point2_of o p) }
{
    PointAnswer::from(obb2::nearest_point2(o, p))
}

// Whether two turned boxes meet: no exactly if on some axis across a half edge of `a` or of `b` the computed projections of the corners of one lie
// strictly below those of the other. Ranges whose computed ends are equal overlap. Rounding parts some boxes that touch, and joins some that lie
// close. The order of `a` and `b` does not matter. Across a half edge of length 0 every finite corner projects to 0, so boxes that only that axis
// would part count as meeting. Projections that are NaN are left out. Where a box has no others on an axis, that axis parts it from the other box,
// unless that one reaches from -infinity to +infinity there.
// Example: (0, 0, 1, 0, 0, 1), (3, 0, 1, 0, 0, 1) gives false.
#[unsafe(no_mangle)]
pub extern "C" fn bgz_obb2_is_intersect_obb2(a: Obb2, b: Obb2) -> bool
    ensures { IsIntersectObb2Promise a b result }
{
    obb2::is_intersect_obb2(a, b)
}
