// What a line or a ray has of a box: the stretch inside, and the edge by which it comes in.
ghost use Rattle.std.specs.Prelude.{◌≡◌, ◌+◌, ◌*◌};
ghost use Rattle.slabs.specs.Entry.{named, number_of, crossing_ahead_of, interval_of};

use crate::Interval;

// An edge of a box: the low and the high one in x, in y and, in space, in z. `None` stands among them, and not in an `Option`, so that a clip carries
// one number for an edge.
#[derive(Clone, Copy, Debug, PartialEq, Eq)]
pub enum Edge {
    // No edge: of a miss, or where the interval starts at the lowest finite number.
    None = 0,
    // The edge at min_x.
    Left = 1,
    // The edge at max_x.
    Right = 2,
    // The edge at min_y.
    Lower = 3,
    // The edge at max_y.
    Upper = 4,
    // The face at min_z.
    Near = 5,
    // The face at max_z.
    Far = 6,
}

// An interval, and the edge at which it starts.
#[derive(Clone, Copy, Debug, PartialEq)]
pub enum Crossing {
    Miss,
    Hit { tmin: f32, tmax: f32, edge: Edge },
}

impl Edge {
    // The number by which C and the results of a face know the edge.
    pub fn number(self) -> u32
        ensures { result ≡ number_of self }
    {
        self as u32
    }

    // The low edge in a dimension, counted from 0. From a fourth dimension on it has no name.
    #[tactic(auto, unfolding(crate::specs::Entry::named))]
    pub(crate) fn low(dimension: usize) -> Self
        ensures { result ≡ named (2 * dimension + 1) }
    {
        match dimension {
            0 => Edge::Left,
            1 => Edge::Lower,
            2 => Edge::Near,
            _ => Edge::None,
        }
    }

    // The high edge, likewise.
    #[tactic(auto, unfolding(crate::specs::Entry::named))]
    pub(crate) fn high(dimension: usize) -> Self
        ensures { result ≡ named (2 * dimension + 2) }
    {
        match dimension {
            0 => Edge::Right,
            1 => Edge::Upper,
            2 => Edge::Far,
            _ => Edge::None,
        }
    }
}

impl Crossing {
    // The interval without the edge.
    pub fn interval(self) -> Interval
        ensures { result ≡ interval_of self }
    {
        match self {
            Crossing::Miss => Interval::Miss,
            Crossing::Hit { tmin, tmax, .. } => Interval::Hit { tmin, tmax },
        }
    }

    // A ray's answer from its line's: the crossing where it ends at 0 or later. Its start is not raised to 0, so its edge stays.
    #[tactic(auto, unfolding(crate::specs::Entry::crossing_ahead_of))]
    pub fn ahead(self) -> Self
        ensures { result ≡ crossing_ahead_of self }
    {
        let Crossing::Hit { tmax, .. } = self else {
            return Crossing::Miss;
        };
        if tmax >= 0.0 { self } else { Crossing::Miss }
    }
}
