// Upright boxes of space: clipping lines, and what is inside.
#![tactic(auto)]

ghost use Rattle.std.specs.Prelude.{◌≡◌};
ghost use Rattle.c_answers.specs.Answers.{interval_answer_of};
ghost use Rattle.c_answers.specs.Told.{Tells};
ghost use Rattle.slabs.specs.Entry.{IsLineCrossing};
ghost use Rattle.slabs.specs.Promise.{AnswerLaws};
ghost use Rattle.aabb_3.specs.Clip.{slabs, crossing_against_line_of};
ghost use Rattle.aabb_3.specs.Inside.{is_include_point_of, center_of};

use c_answers::IntervalAnswer;
use types::{Aabb3, Vec3};

// The stretch of the line `origin` + t * `direction` in the box `b`, as `aabb::intersections_against_line` has it, with z after x and y: from tmin to
// tmax, tmin <= tmax, both finite, faces included. None if the line misses `b`. Rounding can turn a touched edge or corner into a miss, and a narrow
// miss into a hit. A line that is in the box only at t beyond the finite numbers misses it. The edge is a face of the box, told by the same rule with
// z after y: `Edge::Near` at min_z and `Edge::Far` at max_z.
// Example: (0, 0, 0, 4, 2, 1), (6, -1, 0.5), (-1, 1, 0) gives (2, 3, `Edge::Right`).
#[unsafe(no_mangle)]
#[tactic(auto, using(slabs::proofs::Promise::answer_laws))]
pub extern "C" fn bgz_aabb_3_intersections_against_line(
    b: Aabb3,
    origin: Vec3,
    direction: Vec3,
) -> IntervalAnswer
    ensures answers { result ≡ interval_answer_of (crossing_against_line_of b origin direction) }
    ensures means { Tells interval_answer_of result (IsLineCrossing (slabs b origin direction)) }
    ensures laws { AnswerLaws }
{
    IntervalAnswer::from(aabb_3::intersections_against_line(b, origin, direction))
}

// Whether `p` is in `b`, faces included. With a NaN in `p` or in `b` it is not, unlike for `aabb3::is_contain`.
// Example: (0, 0, 0, 4, 2, 1), (4, 1, 1) gives true.
#[unsafe(no_mangle)]
pub extern "C" fn bgz_aabb_3_is_include_point(b: Aabb3, p: Vec3) -> bool
    ensures { result ≡ is_include_point_of b p }
{
    aabb_3::is_include_point(b, p)
}

// (low + high) * 0.5, by component.
// Example: (0, 0, 0, 4, 2, 1) gives (2, 1, 0.5).
#[unsafe(no_mangle)]
pub extern "C" fn bgz_aabb_3_center(b: Aabb3) -> Vec3
    ensures { result ≡ center_of b }
{
    aabb_3::center(b)
}
