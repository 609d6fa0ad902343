// Turned boxes of space.
#![tactic(auto)]

ghost use Rattle.std.specs.Prelude.{◌≡◌};
ghost use Rattle.c_answers.specs.Answers.{bool_answer_of};
ghost use Rattle.c_answers.specs.Told.{Tells};
ghost use Rattle.obb3.specs.Corners.{corners_of};
ghost use Rattle.c_obb3.specs.Corners.{points_of};
ghost use Rattle.obb3.specs.Point.{is_include_point_of};
ghost use Rattle.obb3.specs.Intersect.{is_intersect_to_obb3_of};
ghost use Rattle.obb3.specs.Promise.{IsIntersectToObb3Promise};

use c_answers::BoolAnswer;
use types::{Obb3, Vec3};

// Eight corners of space: four of one face, each joined to the next by an edge and the last to the first, then those of the opposite
// face in the same order.
#[repr(C)]
#[derive(Clone, Copy, Debug, PartialEq)]
pub struct Corners3 {
    // c - u - v - w.
    pub p0: Vec3,
    // c + u - v - w.
    pub p1: Vec3,
    // c + u + v - w.
    pub p2: Vec3,
    // c - u + v - w.
    pub p3: Vec3,
    // c - u - v + w.
    pub p4: Vec3,
    // c + u - v + w.
    pub p5: Vec3,
    // c + u + v + w.
    pub p6: Vec3,
    // c - u + v + w.
    pub p7: Vec3,
}

// c - u - v - w, c + u - v - w, c + u + v - w, c - u + v - w, and the same four with + w.
// Example: (0, 0, 0, 1, 0, 0, 0, 2, 0, 0, 0, 3) gives ((-1, -2, -3), (1, -2, -3), (1, 2, -3), (-1, 2, -3), (-1, -2, 3), (1, -2, 3), (1, 2, 3), (-1, 2, 3)).
#[unsafe(no_mangle)]
pub extern "C" fn bgz_obb3_corner_points(o: Obb3) -> Corners3
    ensures { points_of result ≡ corners_of o }
{
    let [p0, p1, p2, p3, p4, p5, p6, p7] = obb3::corner_points(o);
    Corners3 {
        p0,
        p1,
        p2,
        p3,
        p4,
        p5,
        p6,
        p7,
    }
}

// Whether `p` is in `o`, faces included, by its dot products with u, v and w, as computed, each edge stretched by 1 + `eps`. With an `eps` of 0, where
// u, v and w are at right angles and no product overflows or underflows, that is the box, but for rounding. Else it is another region. A product that
// is a NaN counts as inside, and a half edge of length 0 does not bound its direction.
// Example: (0, 0, 0, 2, 0, 0, 0, 1, 0, 0, 0, 1), (2, 1, 1), 0 gives true.
#[unsafe(no_mangle)]
pub extern "C" fn bgz_obb3_is_include_point(o: Obb3, p: Vec3, eps: f32) -> bool
    ensures { result ≡ is_include_point_of o p eps }
{
    obb3::is_include_point(o, p, eps)
}

// Whether two turned boxes meet: no if on some axis the computed projections of the corners of one lie strictly below those of the other. There are
// fifteen: u, v and w of `a`, each times 1 / its norm, those of `b`, and the cross product of each of these of `a` with each of `b`. The first axis
// that parts the boxes, or on which a projection is a NaN, decides. Ranges whose computed ends are equal overlap. Rounding parts some boxes that
// touch, and joins some that lie close.
// Refused: `NAN_PROJECTION` if a projection is a NaN on an axis that is reached, whether it parts the boxes or not; as with a half edge of
// length 0.
// Example: (0, 0, 0, 1, 0, 0, 0, 1, 0, 0, 0, 1), (3, 0, 0, 1, 0, 0, 0, 1, 0, 0, 0, 1) gives false.
#[unsafe(no_mangle)]
pub extern "C" fn bgz_obb3_is_intersect_to_obb3(a: Obb3, b: Obb3) -> BoolAnswer
    ensures answers { result ≡ bool_answer_of (is_intersect_to_obb3_of a b) }
    ensures means { Tells bool_answer_of result (IsIntersectToObb3Promise a b) }
{
    BoolAnswer::from(obb3::is_intersect_to_obb3(a, b))
}
