// The ink that a pen stroke leaves in an upright box: the length of what it draws there.
// The two ends of the stroke and the box are arguments of their own, as in C and in ./ask.
#![tactic(auto)]

ghost use Rattle.std.specs.Prelude.{◌≡◌};
ghost use Rattle.stroke_ink.specs.Ink.{bounded_of, length_over_of, drawn_of};
ghost use Rattle.stroke_ink.specs.Promise.{InkPromise};

use slabs::Interval;
use stroke_check::within_limits;
use types::{Aabb2, Refusal, RefusalAt, Vec2};

// What an interval has of the numbers from 0 to 1. A miss stays a miss.
#[tactic(auto, unfolding(crate::specs::Ink::bounded_of))]
fn bounded(i: Interval) -> Interval
    ensures { result ≡ bounded_of i }
{
    let Interval::Hit { tmin, tmax } = i else {
        return Interval::Miss;
    };
    let inside = Interval::Hit {
        tmin: float::max(tmin, 0.0),
        tmax: float::min(tmax, 1.0),
    };
    inside.ordered()
}

// The length of the stroke over an interval of ratios, and 0 over none.
// The root has the value of that in `edge2::length`. It is guessed and then confirmed, which takes a fraction of the time.
#[tactic(auto, unfolding(crate::specs::Ink::length_over_of))]
fn length_over(p0: Vec2, p1: Vec2, i: Interval) -> f32
    ensures { result ≡ length_over_of p0 p1 i }
{
    let Interval::Hit { tmin, tmax } = i else {
        return 0.0;
    };
    let from = edge2_measure::position_from_ratio(p0, p1, tmin);
    let to = edge2_measure::position_from_ratio(p0, p1, tmax);
    root_guess::sqrt(edge2_measure::squared_length(from, to))
}

// The length in the box, by the clip of the stroke's line.
#[tactic(auto, using(slabs::proofs::Entry::without_edge), unfolding(crate::specs::Ink::drawn_of))]
fn drawn(p0: Vec2, p1: Vec2, b: Aabb2) -> f32
    ensures { result ≡ drawn_of p0 p1 b }
{
    let direction = p1 - p0;
    let inside = aabb::intersections_against_line(b, p0, direction);
    length_over(p0, p1, bounded(inside.interval()))
}

// The ink that the stroke from p0 to p1 leaves in the box. A coordinate that offends is refused as in the walk, then a box that is not ordered
// in x, then in y. Equal ends are not refused.
#[tactic(auto, using(crate::proofs::Promised::refused), unfolding(crate::specs::Ink::ink_of, stroke_check::specs::Check::unless_offender))]
pub fn ink(p0: Vec2, p1: Vec2, b: Aabb2) -> Result<f32, RefusalAt>
    ensures { InkPromise p0 p1 b result }
{
    within_limits(&[p0.x, p0.y, p1.x, p1.y])?;
    if b.is_ordered() {
        return Ok(drawn(p0, p1, b));
    }
    Err(Refusal::Order.into())
}
