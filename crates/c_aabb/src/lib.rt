// Upright boxes: clipping lines, and what is inside.
#![tactic(auto)]

ghost use Rattle.std.specs.Prelude.{◌≡◌, length};
ghost use Rattle.lists.specs.Lent.{leaves};
ghost use Rattle.c_answers.specs.Answers.{interval_answer_of, count_answer_of};
ghost use Rattle.c_answers.specs.Told.{Tells};
ghost use Rattle.slabs.specs.Entry.{IsLineCrossing, IsRayCrossing};
ghost use Rattle.slabs.specs.Promise.{AnswerLaws};
ghost use Rattle.aabb.specs.Clip.{slabs, crossing_against_line_of, crossing_against_ray_of};
ghost use Rattle.aabb.specs.Inside.{is_include_point_of, center_of};
ghost use Rattle.aabb_lines.specs.Results.{results_of};
ghost use Rattle.aabb_lines.specs.Answer.{intersections_against_lines_of};

use c_answers::{CountAnswer, IntervalAnswer};
use types::{Aabb2, Vec2};

// The stretch of the line `origin` + t * `direction` in the box `b`, edges included: from tmin to tmax, tmin <= tmax, both finite. None if the line
// misses `b`. The t at which the line meets an edge is (edge - `origin`) / `direction`, as computed: rounding can turn a touched corner into a miss,
// and a narrow miss into a hit. t keeps its sign: a line may be in the box only at negative t. It is held to the finite numbers, -3.4028235e38 to
// 3.4028235e38: where nothing bounds t these two are the answer, and a line that is in the box only beyond them misses it. Where a component of
// `direction` is a zero, that dimension has no t, and only tests that `origin` is not outside. An edge whose t is a NaN drops out: that dimension has
// the opposite edge's t alone. Where both drop out, as with a NaN in `origin` or `direction`, that dimension bounds nothing. A box reversed in a
// dimension is taken as ordered there, unless that component of `direction` is a zero.
// The edge is the one by which the line comes in: `Edge::Left` at min_x, `Edge::Right` at max_x, `Edge::Lower` at min_y or `Edge::Upper` at max_y. It
// is `Edge::None` if tmin is -3.4028235e38. Else it is an edge of x if the smaller t of x equals tmin, and if not, one of y: the edge with that t,
// and where both have it, the one at min_x or min_y. In a box reversed in x the edge at min_x is on the side of the larger x. Where `origin` is
// far from the box, rounding can make two t equal, and so tell the edge at min_x for the one at max_x, or an edge of x for one of y.
// Example: (0, 0, 4, 2), (6, -1), (-1, 1) gives (2, 3, `Edge::Right`).
#[unsafe(no_mangle)]
#[tactic(auto, using(slabs::proofs::Promise::answer_laws))]
pub extern "C" fn bgz_aabb_intersections_against_line(
    b: Aabb2,
    origin: Vec2,
    direction: Vec2,
) -> IntervalAnswer
    ensures answers { result ≡ interval_answer_of (crossing_against_line_of b origin direction) }
    ensures means { Tells interval_answer_of result (IsLineCrossing (slabs b origin direction)) }
    ensures laws { AnswerLaws }
{
    IntervalAnswer::from(aabb::intersections_against_line(b, origin, direction))
}

// The line's answer, its edge too, if tmax >= 0, and else none. tmin is not raised to 0: it may be negative, and the edge then lies
// behind the origin.
// Example: (0, 0, 4, 2), (2, 1), (1, 0) gives (-2, 2, `Edge::Left`).
#[unsafe(no_mangle)]
pub extern "C" fn bgz_aabb_intersections_against_ray(
    b: Aabb2,
    origin: Vec2,
    direction: Vec2,
) -> IntervalAnswer
    ensures answers { result ≡ interval_answer_of (crossing_against_ray_of b origin direction) }
    ensures means { Tells interval_answer_of result (IsRayCrossing (slabs b origin direction)) }
{
    IntervalAnswer::from(aabb::intersections_against_ray(b, origin, direction))
}

// Every line of a list against the box `b`, a whole face in one call: each is answered as by `aabb::intersections_against_line`, bit
// for bit. In `lines` a line is four floats, `LINE_FLOATS`: x and y of its origin, x and y of its direction. It gives four,
// `LINE_RESULT_FLOATS`: 1, tmin, tmax and the number of the edge for a hit, or 0, 0, 0 and 0 for a miss; a hit may have the interval
// from 0 to 0 too. The numbers are 0 for `Edge::None`, 1 for `Edge::Left`, 2 for `Edge::Right`, 3 for `Edge::Lower` and 4 for
// `Edge::Upper`. Both lengths count floats, not lines. There may be any number of lines, none too.
// Writes what the lines give, in their order, to the start of `out` and answers how many floats that is, four a line.
// Refused: `LINES` if the length of `lines` is not a multiple of 4; `ROOM` if `out` has fewer than four floats a line.
// Example: (0, 0, 4, 2), [6, -1, -1, 1, 6, -1, 1, 1], [9; 10] gives 8 and leaves [1, 2, 3, 2, 0, 0, 0, 0, 9, 9].
#[unsafe(no_mangle)]
pub extern "C" fn bgz_aabb_intersections_against_lines(
    b: Aabb2,
    lines: &[f32],
    out: &mut [f32],
) -> CountAnswer
    ensures answers { result ≡ count_answer_of (intersections_against_lines_of b lines.now (length out.old)) }
    ensures leaves { out.new ≡ leaves (intersections_against_lines_of b lines.now (length out.old)) (results_of b lines.now) out.old }
{
    CountAnswer::from(aabb_lines::intersections_against_lines(b, lines, out))
}

// Whether `p` is in `b`, edges included. With a NaN in `p` or in `b` it is not.
// Example: (0, 0, 4, 2), (4, 1) gives true.
#[unsafe(no_mangle)]
pub extern "C" fn bgz_aabb_is_include_point(b: Aabb2, p: Vec2) -> bool
    ensures { result ≡ is_include_point_of b p }
{
    aabb::is_include_point(b, p)
}

// (low + high) * 0.5, by component.
// Example: (0, 0, 4, 2) gives (2, 1).
#[unsafe(no_mangle)]
pub extern "C" fn bgz_aabb_center(b: Aabb2) -> Vec2
    ensures { result ≡ center_of b }
{
    aabb::center(b)
}
