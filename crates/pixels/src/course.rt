// The course of a stroke's walk over an image, from the first position in the image on.
ghost use Rattle.std.specs.Prelude.{◌≡◌};
ghost use Rattle.std.proofs.Props.{props};
ghost use Rattle.stroke.specs.Steps.{Paced};
ghost use Rattle.stroke.proofs.Paces.{paced_prop};
ghost use Rattle.pixels.specs.Limit.{misses_of};
ghost use Rattle.pixels.specs.Post.{Entry};

use stroke::{Accepted, Axis, Image, Walk};
use types::Vec2;

// No walk of an accepted stroke takes more steps, so this bound decides nothing where arithmetic is IEEE 754's. On a processor set to flush
// subnormals a slope may be 0 / 0, and then it is what ends the walk.
pub(crate) const MOST_STEPS: usize = 131_074;

// Where a walk has come to: how many entries were made, how many steps were taken, and the position after them. The two numbers differ by the steps
// that the walk took before it came into the image.
#[derive(Clone, Copy, Debug, PartialEq)]
pub(crate) struct Reached {
    pub(crate) count: usize,
    pub(crate) steps: usize,
    pub(crate) position: Vec2,
}

// The walk of an accepted stroke, and where it first comes into the image.
#[derive(Clone, Copy, Debug, PartialEq)]
pub(crate) struct Course {
    pub(crate) image: Image,
    pub(crate) walk: Walk,
    pub(crate) first: Reached,
    ghost paced: { Paced walk.x walk.y } by { paced_prop walk.x walk.y },
    ghost entry: { Entry image.width image.height walk.x walk.y first } by { Prim.hlevel props },
}

// If so, no number of the coordinate's range is on the side.
fn misses(axis: Axis, side: f32) -> bool
    ensures { result ≡ misses_of axis side }
{
    axis.high < 0.0 || axis.low >= side
}

// The first position in the image. Where there is none, it is the first position of all if the ranges tell so, and else the one at which the walk
// leaves them.
fn entry(image: Image, walk: Walk) -> Reached
    ensures { Entry image.width image.height walk.x walk.y result }
{
    let mut position = walk.first();
    if misses(walk.x, image.width as f32) || misses(walk.y, image.height as f32) {
        return Reached {
            count: 0,
            steps: 0,
            position,
        };
    }
    // The loop runs over numbers, since it counts steps: the positions stand in no list. `leave` walks so too. Each of the two ends by another test
    // and answers something else, and a closure for the test would need clauses of its own.
    for steps in 0..MOST_STEPS {
        if !walk.spans(position) || image.contains(position) {
            return Reached {
                count: 0,
                steps,
                position,
            };
        }
        position = walk.next(position);
    }
    Reached {
        count: 0,
        steps: MOST_STEPS,
        position,
    }
}

impl Course {
    ghost use Rattle.stroke.specs.Walk.{along_x, along_y};

    pub(crate) fn new(stroke: Accepted) -> Self
        ensures image { result.image ≡ stroke.image }
        ensures x { result.walk.x ≡ along_x stroke.p0 stroke.p1 }
        ensures y { result.walk.y ≡ along_y stroke.p0 stroke.p1 }
    {
        let walk = stroke.walk();
        Course {
            image: stroke.image,
            walk,
            first: entry(stroke.image, walk),
        }
    }
}
