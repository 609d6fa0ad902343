// A ray against an upright box of space. It has a static library of its own, apart from c_aabb_3, so that the clip of a line has one caller in each
// and LLVM inlines it.
#![tactic(auto)]

ghost use Rattle.std.specs.Prelude.{◌≡◌};
ghost use Rattle.c_answers.specs.Answers.{interval_answer_of};
ghost use Rattle.c_answers.specs.Told.{Tells};
ghost use Rattle.slabs.specs.Entry.{IsRayCrossing};
ghost use Rattle.aabb_3.specs.Clip.{slabs, crossing_against_ray_of};

use c_answers::IntervalAnswer;
use types::{Aabb3, Vec3};

// The answer of `aabb_3::intersections_against_line`, its edge too, if tmax >= 0, and else none. tmin is not raised to 0: it may be negative.
// Example: (0, 0, 0, 4, 2, 1), (2, 1, 0.5), (1, 0, 0) gives (-2, 2, `Edge::Left`).
#[unsafe(no_mangle)]
pub extern "C" fn bgz_aabb_3_intersections_against_ray(
    b: Aabb3,
    origin: Vec3,
    direction: Vec3,
) -> IntervalAnswer
    ensures answers { result ≡ interval_answer_of (crossing_against_ray_of b origin direction) }
    ensures means { Tells interval_answer_of result (IsRayCrossing (slabs b origin direction)) }
{
    IntervalAnswer::from(aabb_3::intersections_against_ray(b, origin, direction))
}
