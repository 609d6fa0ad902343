// The walk of a stroke without the closing entry, and its bound, apart from c_edge2: each has an archive of its own, in which the walk has one
// caller, and LLVM inlines it there.
#![tactic(auto)]

ghost use Rattle.std.specs.Prelude.{◌≡◌, false, length as entries};
ghost use Rattle.c_answers.specs.Answers.{count_answer_at_of};
ghost use Rattle.c_answers.specs.Told.{Tells};
ghost use Rattle.pixels.specs.Answer.{pixels_inside_of};
ghost use Rattle.pixels.specs.Promise.{WalkPromise};
ghost use Rattle.stroke_bound.specs.Bound.{pixels_bound_of};

use c_answers::CountAnswer;
use types::Vec2;

// The pixels along the stroke from `p0` to `p1`, in an image of `width` by `height` pixels; a side may be 0. They are the entries of
// `edge2::overlapping_pixels_dda` without the closing one. Each is row * `width` + column of a position of the walk that lies in the image: the row is
// below `height` and the column below `width`. The last pixels before `p1`, that of `p1` among them, may be missing, or lie in another row or column,
// since the walk's rounding adds up: (0.5, 0.5), (3.5, 2.5) in 8 by 8 gives 0, 9, 10, and not 19, in which `p1` lies. How far that goes for a long stroke
// stands with `edge2::overlapping_pixels_dda`.
// Writes the entries to the start of `list` and answers how many: always fewer than `edge2::pixels_bound` answers, so a list that is
// shorter than that by one is never too short.
// Refused: `SIZE` if `width` or `height` is above 16,384; of the coordinates `p0.x`, `p0.y`, `p1.x`, `p1.y` the first that offends
// decides: `NOT_FINITE` if it is not finite, `COORDINATE` if it is above 65,536 in size; `SAME_ENDS` if `p0` equals `p1`; `ROOM` if `list`
// is shorter than the entries.
// Place: that of `edge2::overlapping_pixels_dda`.
// Example: 8, 4, (1.5, 1.5), (3.5, 1.5), [0; 6] gives 3 and leaves [9, 10, 11, 0, 0, 0].
#[unsafe(no_mangle)]
pub extern "C" fn bgz_edge2_pixels_inside(
    width: usize,
    height: usize,
    p0: Vec2,
    p1: Vec2,
    list: &mut [u32],
) -> CountAnswer
    ensures answers { result ≡ count_answer_at_of (pixels_inside_of width height p0 p1 (entries list.old)) }
    ensures means { Tells count_answer_at_of result (λ answer. WalkPromise false width height p0 p1 list.old answer list.new) }
{
    CountAnswer::from(pixels::pixels_inside(width, height, p0, p1, list))
}

// How many entries the stroke from `p0` to `p1` makes at most in an image of `width` by `height` pixels, the closing one among them. It is 2 * D + 2, or
// one more than the longer of `width` and `height` if that is less. D is the larger of the exact differences between the ends in x and in y, not as
// floats round them, then rounded up to a whole number. A list of this length is never too short for `edge2::overlapping_pixels_dda`. One that is
// shorter by one is never too short for `edge2::pixels_inside`.
// Refused: `SIZE` if `width` or `height` is above 16,384; of the coordinates `p0.x`, `p0.y`, `p1.x`, `p1.y` the first that offends
// decides: `NOT_FINITE` if it is not finite, `COORDINATE` if it is above 65,536 in size; `SAME_ENDS` if `p0` equals `p1`.
// Place: that of `edge2::overlapping_pixels_dda`.
// Example: 64, 64, (0, 0), (2.5, 1) gives 8.
#[unsafe(no_mangle)]
pub extern "C" fn bgz_edge2_pixels_bound(
    width: usize,
    height: usize,
    p0: Vec2,
    p1: Vec2,
) -> CountAnswer
    ensures { result ≡ count_answer_at_of (pixels_bound_of width height p0 p1) }
{
    CountAnswer::from(stroke_bound::pixels_bound(width, height, p0, p1))
}
