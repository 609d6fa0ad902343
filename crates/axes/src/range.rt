// The range of numbers, and whether two lie apart.
ghost use Rattle.std.specs.Prelude.{◌≡◌};
ghost use Rattle.axes.specs.Axes.{widened_of, apart_of};

use types::Range;

// The range of no numbers.
pub(crate) const EMPTY: Range = Range {
    low: f32::INFINITY,
    high: f32::NEG_INFINITY,
};

// The range widened to hold x. The ends are never NaN, so one comparison per end is enough to ignore a NaN x.
pub fn widened(r: Range, x: f32) -> Range
    ensures { result ≡ widened_of r x }
{
    Range {
        low: float::lesser(r.low, x),
        high: float::greater(r.high, x),
    }
}

// Whether one range's maximum is strictly below the other's minimum. Both comparisons are made, with no jump between them.
#[tactic(auto, unfolding(crate::specs::Axes::apart_of))]
pub fn apart(a: Range, b: Range) -> bool
    ensures { result ≡ apart_of a b }
{
    a.is_below(b) | b.is_below(a)
}
