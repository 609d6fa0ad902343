// Ranges of numbers.
#![tactic(auto)]

ghost use Rattle.std.specs.Prelude.{◌≡◌};
ghost use Rattle.c_answers.specs.Answers.{optional_float_answer_of};
ghost use Rattle.range.specs.Values.{distance_to_range_of, intersection_length_of};

use c_answers::FloatAnswer;
use types::Range;

// The gap between two ranges. None if they touch or overlap.
// Refused: `ORDER` if `a` or `b` is not low <= high, as with a NaN.
// Example: (0, 1), (3, 5) gives 2.
#[unsafe(no_mangle)]
pub extern "C" fn bgz_range_distance_to_range(a: Range, b: Range) -> FloatAnswer
    ensures { result ≡ optional_float_answer_of (distance_to_range_of a b) }
{
    FloatAnswer::from(range::distance_to_range(a, b))
}

// The length that two ranges share. None if they touch or lie apart; a range of one point strictly inside the other gives 0.
// Refused: `ORDER` if `a` or `b` is not low <= high, as with a NaN.
// Example: (0, 4), (3, 5) gives 1.
#[unsafe(no_mangle)]
pub extern "C" fn bgz_range_intersection_length(a: Range, b: Range) -> FloatAnswer
    ensures { result ≡ optional_float_answer_of (intersection_length_of a b) }
{
    FloatAnswer::from(range::intersection_length(a, b))
}
