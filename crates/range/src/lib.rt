// Ranges of numbers: the gap between two, and the length that they share.
#![tactic(auto, unfolding(crate::specs::Values::distance_to_range_of, crate::specs::Values::intersection_length_of))]

ghost use Rattle.std.specs.Prelude.{◌≡◌};
ghost use Rattle.range.specs.Values.{unordered_of, distance_to_range_of, intersection_length_of};

use types::{Range, Refusal};

fn unordered(a: Range, b: Range) -> bool
    ensures { result ≡ unordered_of a b }
{
    !(a.is_ordered() & b.is_ordered())
}

// The gap between two ranges, or none where they touch or overlap. A range that is not ordered is refused.
pub fn distance_to_range(a: Range, b: Range) -> Result<Option<f32>, Refusal>
    ensures { result ≡ distance_to_range_of a b }
{
    if unordered(a, b) {
        return Err(Refusal::Order);
    }
    if b.is_below(a) {
        return Ok(Some(a.low - b.high));
    }
    if a.is_below(b) {
        return Ok(Some(b.low - a.high));
    }
    Ok(None)
}

// The length that two ranges share, or none where they touch or lie apart. A range that is not ordered is refused.
pub fn intersection_length(a: Range, b: Range) -> Result<Option<f32>, Refusal>
    ensures { result ≡ intersection_length_of a b }
{
    if unordered(a, b) {
        return Err(Refusal::Order);
    }
    if (a.high <= b.low) | (a.low >= b.high) {
        return Ok(None);
    }
    Ok(Some(float::min(a.high, b.high) - float::max(a.low, b.low)))
}
