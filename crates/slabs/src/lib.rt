// An upright box, dimension by dimension: a slab is what one dimension has of the box and of a line that is clipped against it.
#![tactic(auto, unfolding(crate::specs::Clip::ordered_of))]

ghost use Rattle.std.specs.Prelude.{◌≡◌};
ghost use Rattle.slabs.specs.Clip.{outside, ordered_of, ahead_of, clip_over};
ghost use Rattle.slabs.specs.Entry.{with_edge, IsLineCrossing, IsRayCrossing};
ghost use Rattle.slabs.specs.Promise.{AnswerLaws};
ghost use Rattle.slabs.specs.Inside.{within_of};

mod crossing;

pub use crossing::{Crossing, Edge};
use types::Range;

// The stretch of a line or a ray inside a box, by the parameters at which it enters and leaves. An enum of its own and no `Option`, so that a miss
// and both ends have names.
#[derive(Clone, Copy, Debug, PartialEq)]
pub enum Interval {
    Miss,
    Hit { tmin: f32, tmax: f32 },
}

// One dimension: the box from low to high, and the line's origin and direction. The ends are two fields: with a `Range` each formula would read
// `s.range.low`, and only `is_outside` would be shorter.
#[derive(Clone, Copy, Debug, PartialEq)]
pub struct Slab {
    pub low: f32,
    pub high: f32,
    pub origin: f32,
    pub direction: f32,
}

impl Slab {
    // Whether the line's origin is outside.
    fn is_outside(self) -> bool
        ensures { result ≡ outside self }
    {
        self.origin < self.low || self.origin > self.high
    }
}

impl Interval {
    // The interval, or a miss where its ends are not in order.
    pub fn ordered(self) -> Self
        ensures { result ≡ ordered_of self }
    {
        let Interval::Hit { tmin, tmax } = self else {
            return Interval::Miss;
        };
        if tmax >= tmin {
            Interval::Hit { tmin, tmax }
        } else {
            Interval::Miss
        }
    }
}

// What a line has of the box whose dimensions the slabs are: its last entry, its first exit, and the edge of that entry. The last clause is of any
// answers: what a miss means rules out every hit, and more slabs leave no more of a line.
pub fn clip<const N: usize>(slabs: &[Slab; N]) -> Crossing
    ensures answers { result ≡ with_edge slabs.now (clip_over slabs.now) }
    ensures means { IsLineCrossing slabs.now result }
    ensures laws { AnswerLaws }
{
    let mut tmin = f32::MIN;
    let mut tmax = f32::MAX;
    let mut edge = Edge::None;
    for (k, s) in slabs.iter().enumerate() {
        if s.direction == 0.0 {
            if s.is_outside() {
                return Crossing::Miss;
            }
        } else {
            let at_low = (s.low - s.origin) / s.direction;
            let at_high = (s.high - s.origin) / s.direction;
            // The second quotient stands in for a NaN in the first, so that one comparison orders them.
            let first = float::number_or(at_low, at_high);
            let entry = float::lesser(first, at_high);
            let side = if at_low <= entry {
                Edge::low(k)
            } else {
                Edge::high(k)
            };
            // Chosen in every turn: an `if` around this and the next line would jump on the data.
            edge = if entry > tmin { side } else { edge };
            tmin = float::greater(tmin, entry);
            tmax = float::lesser(tmax, float::greater(first, at_high));
        }
    }
    if tmax >= tmin {
        Crossing::Hit { tmin, tmax, edge }
    } else {
        Crossing::Miss
    }
}

// What a ray has: its line's crossing where that ends at 0 or later.
pub fn clip_ahead<const N: usize>(slabs: &[Slab; N]) -> Crossing
    ensures answers { result ≡ with_edge slabs.now (ahead_of (clip_over slabs.now)) }
    ensures means { IsRayCrossing slabs.now result }
{
    clip(slabs).ahead()
}

// Whether a point's coordinate is in one dimension of a box, ends included. A NaN is outside.
// The library's `(low..=high).contains(&at)` proves too. It compiles to seven jumps in a point's test, and these comparisons to none.
pub fn within(range: Range, at: f32) -> bool
    ensures { result ≡ within_of range at }
{
    (at >= range.low) & (at <= range.high)
}
