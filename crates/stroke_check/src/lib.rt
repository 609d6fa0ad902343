// What is tested of a stroke before it is walked, and of its coordinates before its ink is measured.
#![tactic(auto, unfolding(crate::specs::Check::within_limit_of, crate::specs::Check::refusal_of, crate::specs::Check::same_ends_of, crate::specs::Check::unless_offender, crate::specs::Check::accept_of))]

ghost use Rattle.std.specs.Prelude.{◌≡◌, Ok};
ghost use Rattle.stroke_check.specs.Check.{within_limit_of, refusal_of, first_offender_of, unless_offender, accept_of};

use types::{Refusal, RefusalAt, Vec2, sides_too_large};

// The largest size that a coordinate may have.
const LIMIT: f32 = 65536.0;

// Whether x is finite and at most the limit in size. One comparison tells: the size of a NaN or of an infinity is not at most the limit.
fn within_limit(x: f32) -> bool
    ensures { result ≡ within_limit_of x }
{
    float::abs(x) <= LIMIT
}

// The refusal of a coordinate that is not within the limit.
fn refusal_of(x: f32) -> Refusal
    ensures { result ≡ refusal_of x }
{
    if float::is_finite(x) {
        Refusal::Coordinate
    } else {
        Refusal::NotFinite
    }
}

// The first of the coordinates that is not within the limit is refused, and the refusal tells its place among them.
#[tactic(auto, using(crate::proofs::Offenders::left_none, crate::proofs::Offenders::left_more, crate::proofs::Offenders::left_found, crate::proofs::Offenders::left_end))]
pub fn within_limits(coordinates: &[f32]) -> Result<(), RefusalAt>
    ensures { result ≡ unless_offender (first_offender_of coordinates.now) (Ok tt) }
{
    for (place, &x) in coordinates.iter().enumerate() {
        if !within_limit(x) {
            return Err(refusal_of(x).at(place));
        }
    }
    Ok(())
}

// The image's sides are tested first, then the coordinates, then whether the ends are one point: +0 equals -0. The sides stand as two numbers and the
// stroke as its two ends: C hands them so, and the Image and the Accepted of crate stroke are made from them after the test.
pub fn accept(width: usize, height: usize, p0: Vec2, p1: Vec2) -> Result<(), RefusalAt>
    ensures { result ≡ accept_of width height p0 p1 }
{
    if sides_too_large(width, height) {
        return Err(Refusal::Size.into());
    }
    within_limits(&[p0.x, p0.y, p1.x, p1.y])?;
    if p0 == p1 {
        return Err(Refusal::SameEnds.into());
    }
    Ok(())
}
