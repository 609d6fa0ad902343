// A stroke's walk in one coordinate.
ghost use Rattle.std.specs.Prelude.{◌≡◌};

// Where the coordinate starts, how far it goes in a step, and the range within which the walk goes on. Its ends are two fields: with a `Range` each
// formula would read `axis.range.low`, and only `spans` would be shorter.
#[derive(Clone, Copy, Debug, PartialEq)]
pub struct Axis {
    pub start: f32,
    pub slope: f32,
    pub low: f32,
    pub high: f32,
}

impl Axis {
    ghost use Rattle.stroke.specs.Walk.{axis_from, within};

    // From p to q. The slope keeps the difference's sign. The range goes from the lesser of p and q to the greater, each end moved
    // outwards by 2 ^ -23 and rounded.
    pub fn between(step: f32, p: f32, q: f32) -> Self
        ensures { result ≡ axis_from step p q }
    {
        Axis {
            start: p,
            slope: (q - p) / step,
            low: float::min(p, q) - f32::EPSILON,
            high: float::max(p, q) + f32::EPSILON,
        }
    }

    // Whether x is within the range. A NaN is. There is no branch between the two tests, so that those of both coordinates are made at once.
    pub fn spans(self, x: f32) -> bool
        ensures { result ≡ within self x }
    {
        !((x < self.low) | (x > self.high))
    }
}
