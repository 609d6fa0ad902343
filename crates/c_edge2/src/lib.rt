// Edges, and pen strokes along them.
#![tactic(auto)]

ghost use Rattle.std.specs.Prelude.{◌≡◌, true, length as entries};
ghost use Rattle.c_answers.specs.Answers.{float_answer_of, count_answer_at_of, ink_answer_of};
ghost use Rattle.c_answers.specs.Told.{Tells};
ghost use Rattle.pixels.specs.Answer.{overlapping_pixels_dda_of};
ghost use Rattle.pixels.specs.Promise.{WalkPromise};
ghost use Rattle.edge2.specs.Measure.{length_of, squared_length_of, unit_edge_vector_of, position_from_ratio_of, ratio_from_position_of, culling_intersection_of};
ghost use Rattle.edge2.specs.Nearest.{nearest_origin_of, nearest_to_point_of};
ghost use Rattle.edge2.specs.Inside.{intersection_length_against_aabb2_of};
ghost use Rattle.stroke_ink.specs.Ink.{ink_of};
ghost use Rattle.stroke_ink.specs.Promise.{InkPromise};

use c_answers::{CountAnswer, FloatAnswer, InkAnswer};
use edge2::OnEdge;
use types::{Aabb2, Vec2};

// The length of the edge from `s` to `e`.
// Example: (0, 0), (3, 4) gives 5.
#[unsafe(no_mangle)]
pub extern "C" fn bgz_edge2_length(s: Vec2, e: Vec2) -> f32
    ensures { result ≡ length_of s e }
{
    edge2::length(s, e)
}

// The squared length of the edge from `s` to `e`.
// Example: (0, 0), (3, 4) gives 25.
#[unsafe(no_mangle)]
pub extern "C" fn bgz_edge2_squared_length(s: Vec2, e: Vec2) -> f32
    ensures { result ≡ squared_length_of s e }
{
    edge2::squared_length(s, e)
}

// The direction from `s` to `e`: `e` - `s` times 1 / length. An edge whose computed length is 0 gives infinities or NaN,
// and one whose length overflows zeros or NaN.
// Example: (0, 0), (0, 2) gives (0, 1).
#[unsafe(no_mangle)]
pub extern "C" fn bgz_edge2_unit_edge_vector(s: Vec2, e: Vec2) -> Vec2
    ensures { result ≡ unit_edge_vector_of s e }
{
    edge2::unit_edge_vector(s, e)
}

// (1 - `ratio`) * `p0` + `ratio` * `p1`. With finite ends it is `p0` at 0 and `p1` at 1, but for the sign of a zero. Any ratio is taken.
// Example: (0, 0), (4, 8), 0.25 gives (1, 2).
#[unsafe(no_mangle)]
pub extern "C" fn bgz_edge2_position_from_ratio(p0: Vec2, p1: Vec2, ratio: f32) -> Vec2
    ensures { result ≡ position_from_ratio_of p0 p1 ratio }
{
    edge2::position_from_ratio(p0, p1, ratio)
}

// The dot product of `pe` - `ps` and `q`, divided by the length of `pe` - `ps`. This is del-geo-core's formula: `q` is measured from
// the origin and not from `ps`, and the result is a length and not a ratio.
// Example: (0, 0), (4, 0), (3, 1) gives 3.
#[unsafe(no_mangle)]
pub extern "C" fn bgz_edge2_ratio_from_position(ps: Vec2, pe: Vec2, q: Vec2) -> f32
    ensures { result ≡ ratio_from_position_of ps pe q }
{
    edge2::ratio_from_position(ps, pe, q)
}

// Whether the upright boxes of two edges come as near as a slack, which is 2^-23 times the sum of both edges' extents in x and y. No exactly if in x or
// in y the high end of one, with the slack added, is below the low end of the other, as computed. Where the answer is no, the edges do not cross. A NaN
// or an infinite slack parts nothing.
// Example: (0, 0), (1, 1), (2, 2), (3, 3) gives false.
#[unsafe(no_mangle)]
pub extern "C" fn bgz_edge2_culling_intersection(s0: Vec2, e0: Vec2, s1: Vec2, e1: Vec2) -> bool
    ensures { result ≡ culling_intersection_of s0 e0 s1 e1 }
{
    edge2::culling_intersection(s0, e0, s1, e1)
}

// The point of the edge from `s` to `e` that is nearest to (0, 0), with its ratio, but for rounding. An edge whose computed squared length is 0 gives its
// midpoint, with ratio 0.5. Where that squared length overflows, the point may be a NaN or another than the nearest.
// Example: (-1, 1), (1, 1) gives (0.5, (0, 1)).
#[unsafe(no_mangle)]
pub extern "C" fn bgz_edge2_nearest_origin(s: Vec2, e: Vec2) -> OnEdge
    ensures { result ≡ nearest_origin_of s e }
{
    edge2::nearest_origin(s, e)
}

// The point of the edge from `s` to `e` that is nearest to `p`, with its ratio, but for rounding: it is what `edge2::nearest_origin` gives for the edge
// from `s` - `p` to `e` - `p`, with `p` added. These differences are rounded first, so for a `p` that is far from a short edge the point may lie off the
// edge: (10, 10), (11, 10), (1e8, 10) gives (0.5, (8, 10)).
// Example: (0, 0), (4, 0), (1, 5) gives (0.25, (1, 0)).
#[unsafe(no_mangle)]
pub extern "C" fn bgz_edge2_nearest_to_point(s: Vec2, e: Vec2, p: Vec2) -> OnEdge
    ensures { result ≡ nearest_to_point_of s e p }
{
    edge2::nearest_to_point(s, e, p)
}

// The length of the edge from `s` to `e` in the box `b`, as del-geo-core takes it: the diagonal of what the box's range and the
// range between the ends share in x and in y. 0 if they share nothing in x, or nothing in y. It is the exact length only where the
// edge runs from corner to corner of what is shared: it may be above 0 for an edge that misses the box, and is 0 for one that only runs
// along an edge of the box. Where a coordinate of one end is a NaN, the other end's counts for both.
// Refused: `ORDER` if in x the box is not low <= high, as with a NaN, or both ends are NaN; then, unless x shares nothing, the same
// in y.
// Example: (0, 0), (3, 4), (0, 0, 3, 4) gives 5.
#[unsafe(no_mangle)]
pub extern "C" fn bgz_edge2_intersection_length_against_aabb2(
    s: Vec2,
    e: Vec2,
    b: Aabb2,
) -> FloatAnswer
    ensures { result ≡ float_answer_of (intersection_length_against_aabb2_of s e b) }
{
    FloatAnswer::from(edge2::intersection_length_against_aabb2(s, e, b))
}

// The ink that the stroke from `p0` to `p1` leaves in the box `b`: the length of what it draws there. The stroke's line is clipped against the box, as
// by `aabb::intersections_against_line` with the origin `p0` and the direction `p1` - `p0`. The interval is bounded to 0..1. The ink is the
// `edge2::length` between the positions that `edge2::position_from_ratio` gives for the interval's two ends. It is 0 if the line misses the box or the
// bounding leaves nothing. It is finite and not below 0. With both ends in the box, edges included, it is exactly the stroke's `edge2::length`, with no
// further rounding. With both ends beyond one edge of the box it is 0. Equal ends are not refused: their ink is 0. Otherwise the two positions are
// rounded, so that the ink may differ from the exact length, and may be above the stroke's own. No bound on this is proved. The most that a search by
// running found is 0.0493 from the exact length, for (-65304.58, -64553.074), (64146.25, 65250.32), (-65536, -31735.12, 65536, 61723.89), and 1/64
// above the stroke's `edge2::length`, for (-64281.117, 35206.668), (64216.21, 62848.684), (-64281.113, 0, 65536, 65536). Coordinates half as large
// halve both.
// Refused: `NOT_FINITE` if of the coordinates `p0.x`, `p0.y`, `p1.x`, `p1.y` the first that offends is not finite, `COORDINATE` if it is above
// 65,536 in size; then `ORDER` if in x the box is not low <= high, as with a NaN, then the same in y.
// Place: that of `edge2::overlapping_pixels_dda`.
// Example: (0, 0), (4, 3), (0, 0, 2, 3) gives 2.5.
#[unsafe(no_mangle)]
pub extern "C" fn bgz_edge2_ink(p0: Vec2, p1: Vec2, b: Aabb2) -> InkAnswer
    ensures answers { result ≡ ink_answer_of (ink_of p0 p1 b) }
    ensures means { Tells ink_answer_of result (InkPromise p0 p1 b) }
{
    InkAnswer::from(stroke_ink::ink(p0, p1, b))
}

// The pixels along the stroke from `p0` to `p1`, in an image of `width` by `height` pixels; a side may be 0. They are the pixels of positions a step
// apart: one that the stroke only crosses between two positions is left out. A walk starts at `p0`. Each step adds the difference of the ends divided
// by the larger absolute difference, signs kept. The walk goes on while x and y lie within the ends' ranges, widened by 2^-23 and rounded. Each
// position in the image enters row * `width` + column. The first position outside the ranges enters likewise, as a closing entry: there is always one,
// and it is the last. A negative coordinate counts as 0 there. The closing entry may name a pixel of the image that the stroke does not come to. It may
// also be the pixel of `p1`: (0.5, 0.5), (3.5, 2.5) in 8 by 8 gives 0, 9, 10 and the closing entry 19, in which `p1` lies. For each step is rounded, and
// the errors add up: the walk can leave the ranges long before `p1`, or end in another row or column than `p1`. From (0.5, 16000) to (15000.5, 16009) in
// 16384 by 16384 it ends in column 9216, and from (0.5, 16000) to (15000.5, 16006) it stays in row 16000.
// Writes the entries to the start of `list` and answers how many: never more than `edge2::pixels_bound` answers, so a list of that
// length is never too short.
// Refused: `SIZE` if `width` or `height` is above 16,384; of the coordinates `p0.x`, `p0.y`, `p1.x`, `p1.y` the first that offends
// decides: `NOT_FINITE` if it is not finite, `COORDINATE` if it is above 65,536 in size; `SAME_ENDS` if `p0` equals `p1`; `ROOM` if `list`
// is shorter than the entries.
// Place: `NOT_FINITE` and `COORDINATE` tell which coordinate, 0 to 3 in that order; the others tell none.
// Example: 8, 4, (1.5, 1.5), (3.5, 1.5), [0; 6] gives 4 and leaves [9, 10, 11, 12, 0, 0].
#[unsafe(no_mangle)]
pub extern "C" fn bgz_edge2_overlapping_pixels_dda(
    width: usize,
    height: usize,
    p0: Vec2,
    p1: Vec2,
    list: &mut [u32],
) -> CountAnswer
    ensures answers { result ≡ count_answer_at_of (overlapping_pixels_dda_of width height p0 p1 (entries list.old)) }
    ensures means { Tells count_answer_at_of result (λ answer. WalkPromise true width height p0 p1 list.old answer list.new) }
{
    CountAnswer::from(pixels::overlapping_pixels_dda(width, height, p0, p1, list))
}
