// The entries of a stroke's walk over an image, with the closing entry and without it. The sides stand as two numbers in three functions,
// and a stroke as its two ends, as C hands them: `Accepted::new` makes one value of them after its test.
ghost use Rattle.std.specs.Prelude.{◌+◌, ◌≤◌, true, false, length, Ok};
ghost use Rattle.stroke.specs.Image.{one_if_of};
ghost use Rattle.stroke.specs.Walk.{exit};
ghost use Rattle.pixels.specs.Entries.{entries};
ghost use Rattle.pixels.specs.Promise.{WalkPromise};
ghost use Rattle.pixels.specs.Post.{entered, Listing};

use crate::course::Course;
use crate::number::pixel;
use stroke::Accepted;
use types::{Refusal, RefusalAt, Vec2};

impl Course {
    // Writes the entries, for which the list has room, and answers how many. No store lies beyond the list, whatever the processor's state: the stretch
    // counts no further than its room.
    fn fill<const CLOSING: bool>(self, list: &mut [u32]) -> usize
        requires { length (entered self.image.width self.image.height self.walk.x self.walk.y (exit self.walk.x self.walk.y)) + one_if_of CLOSING ≤ length list.old }
        ensures { Listing (entries CLOSING self.image.width self.image.height self.walk.x self.walk.y) list.old (Ok result) list.new }
    {
        if CLOSING {
            let room = list.len() - 1;
            let last = self.stretch::<true>(list, room);
            list[last.count] = pixel(self.image, self.leave(last));
            return last.count + 1;
        }
        let room = list.len();
        self.stretch::<true>(list, room).count
    }
}

// The walk of a stroke that is accepted. A list that is surely long enough needs no count.
fn draw<const CLOSING: bool>(stroke: Accepted, list: &mut [u32]) -> Result<usize, RefusalAt>
    ensures { WalkPromise CLOSING stroke.image.width stroke.image.height stroke.p0 stroke.p1 list.old result list.new }
{
    let course = Course::new(stroke);
    let more = CLOSING as usize;
    if more <= list.len() {
        let room = list.len() - more;
        if stroke_bound::is_ample(stroke, room) || course.has_room(room) {
            return Ok(course.fill::<CLOSING>(list));
        }
    }
    Err(Refusal::Room.into())
}

// The walk of any stroke, with the closing entry or without it.
fn walk<const CLOSING: bool>(
    width: usize,
    height: usize,
    p0: Vec2,
    p1: Vec2,
    list: &mut [u32],
) -> Result<usize, RefusalAt>
    ensures { WalkPromise CLOSING width height p0 p1 list.old result list.new }
{
    let stroke = Accepted::new(width, height, p0, p1)?;
    draw::<CLOSING>(stroke, list)
}

// Writes the entries of the stroke from p0 to p1 to the start of `list`, and answers how many: the pixel of each position that lies in the image, and
// last a closing entry, of the position at which the walk left the ends' ranges.
pub fn overlapping_pixels_dda(
    width: usize,
    height: usize,
    p0: Vec2,
    p1: Vec2,
    list: &mut [u32],
) -> Result<usize, RefusalAt>
    ensures { WalkPromise true width height p0 p1 list.old result list.new }
{
    walk::<true>(width, height, p0, p1, list)
}

// The same without the closing entry, so that each entry is a pixel of the image.
pub fn pixels_inside(
    width: usize,
    height: usize,
    p0: Vec2,
    p1: Vec2,
    list: &mut [u32],
) -> Result<usize, RefusalAt>
    ensures { WalkPromise false width height p0 p1 list.old result list.new }
{
    walk::<false>(width, height, p0, p1, list)
}
