// What a range's two ends tell.
ghost use Rattle.std.specs.Prelude.{◌≡◌};

use crate::shape::Range;

impl Range {
    ghost use Rattle.types.specs.Range.{ordered_of, below_of, middle_of, length_of};

    // Whether the low end is at most the high one. A range with a NaN is not ordered.
    pub fn is_ordered(self) -> bool
        ensures { result ≡ ordered_of self }
    {
        self.low <= self.high
    }

    // Whether its high end is below the other's low end. Equal ends say no, and so does a NaN at either.
    pub fn is_below(self, other: Range) -> bool
        ensures { result ≡ below_of self other }
    {
        self.high < other.low
    }

    // Half of the sum of both ends, as computed: the sum can be infinite where both ends are finite.
    pub fn middle(self) -> f32
        ensures { result ≡ middle_of self }
    {
        (self.low + self.high) * 0.5
    }

    // The high end less the low one: negative where the low end is above the high one.
    pub fn length(self) -> f32
        ensures { result ≡ length_of self }
    {
        self.high - self.low
    }
}
