// The walk of a stroke. A step adds at most a pixel to x and to y.
ghost use Rattle.std.specs.Prelude.{◌≡◌};
ghost use Rattle.stroke.specs.Walk.{step_of};

use crate::axis::Axis;
use types::Vec2;

// The columns go along x, the rows along y.
#[derive(Clone, Copy, Debug, PartialEq)]
pub struct Walk {
    pub x: Axis,
    pub y: Axis,
}

// The larger absolute difference between the ends. Here and in `Walk::between` the two ends stand by themselves: a struct of the two would be made
// for the call and taken apart at once.
fn step_between(p0: Vec2, p1: Vec2) -> f32
    ensures { result ≡ step_of p0 p1 }
{
    float::max(float::abs(p1.x - p0.x), float::abs(p1.y - p0.y))
}

impl Walk {
    ghost use Rattle.stroke.specs.Walk.{along_x, along_y, in_ranges_of};
    ghost use Rattle.stroke.specs.Steps.{first, next};

    pub fn between(p0: Vec2, p1: Vec2) -> Self
        ensures x { result.x ≡ along_x p0 p1 }
        ensures y { result.y ≡ along_y p0 p1 }
    {
        let step = step_between(p0, p1);
        Walk {
            x: Axis::between(step, p0.x, p1.x),
            y: Axis::between(step, p0.y, p1.y),
        }
    }

    // The first position.
    pub fn first(self) -> Vec2
        ensures { result ≡ first self.x self.y }
    {
        Vec2 {
            x: self.x.start,
            y: self.y.start,
        }
    }

    // The position one step after p. By coordinate, as the axes are: a vector of the slopes would be made to be taken apart.
    pub fn next(self, p: Vec2) -> Vec2
        ensures { result ≡ next self.x self.y p }
    {
        Vec2 {
            x: p.x + self.x.slope,
            y: p.y + self.y.slope,
        }
    }

    // Whether the walk goes on at p: both coordinates lie within their ranges.
    pub fn spans(self, p: Vec2) -> bool
        ensures { result ≡ in_ranges_of self.x self.y p }
    {
        self.x.spans(p.x) & self.y.spans(p.y)
    }
}
