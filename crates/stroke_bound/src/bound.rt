// The bound on a stroke's entries, by its ends and by the image's sides.
ghost use Rattle.std.specs.Prelude.{◌≡◌, true, false, nat_le};
ghost use Rattle.stroke_bound.specs.Bound.{most_entries_of, pixels_bound_of};

use crate::difference::larger_difference;
use stroke::Accepted;
use types::{RefusalAt, Vec2};

// The lesser of the two bounds, the closing entry counted.
fn most_entries(stroke: Accepted) -> usize
    ensures { result ≡ most_entries_of true stroke.image.width stroke.image.height stroke.p0 stroke.p1 }
{
    let by_ends = 2 * larger_difference(stroke) + 2;
    let by_sides = stroke.image.width.max(stroke.image.height) + 1;
    by_ends.min(by_sides)
}

// Whether a list with room for so many entries besides the closing one is surely long enough: the room is no less than one of the two bounds. The
// sides are asked first: where they answer, no difference is worked out.
pub fn is_ample(stroke: Accepted, room: usize) -> bool
    ensures { result ≡ nat_le (most_entries_of false stroke.image.width stroke.image.height stroke.p0 stroke.p1) room }
{
    stroke.image.width.max(stroke.image.height) <= room || 2 * larger_difference(stroke) < room
}

// How many entries the stroke from p0 to p1 makes at most in an image, the closing one among them: a list of this length is never too short for
// `overlapping_pixels_dda`, and one that is shorter by one never for `pixels_inside`. The sides and the ends stand by themselves, as C
// hands them: `Accepted::new` makes one value of them after its test.
pub fn pixels_bound(width: usize, height: usize, p0: Vec2, p1: Vec2) -> Result<usize, RefusalAt>
    ensures { result ≡ pixels_bound_of width height p0 p1 }
{
    let stroke = Accepted::new(width, height, p0, p1)?;
    Ok(most_entries(stroke))
}
