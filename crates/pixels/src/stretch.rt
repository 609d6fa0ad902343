// The positions of a walk that lie in the image. They follow one another, since no coordinate turns back: together they are the stretch.
// The loops run over numbers: they count entries up to a room, where there may be no list to go over, or steps.
ghost use Rattle.std.specs.Prelude.{◌≡◌, ◌≤◌, ◌&&◌, true, cond, length, nat_le, pos};
ghost use Rattle.std.specs.Float.{binary32};
ghost use Rattle.std.specs.Float.Ieee.{lt, of_int};
ghost use Rattle.float.specs.Rounded.{+0};
ghost use Rattle.stroke.specs.Image.{on_image};
ghost use Rattle.stroke.specs.Walk.{position, in_ranges_of, exit};
ghost use Rattle.pixels.specs.Limit.{Limits};
ghost use Rattle.pixels.specs.Post.{entered, inside, Stretch};

use crate::course::{Course, MOST_STEPS, Reached};
use crate::limit::{AtLeast, AtMost, Below, Choice, Limit, choose};
use crate::number::pixel_inside;
use types::Vec2;

// Whether the position is still in the stretch.
fn allow<X: Limit, Y: Limit>(x: X, y: Y, p: Vec2) -> bool
    ensures { result ≡ X.test x p.x && Y.test y p.y }
{
    x.allows(p.x) && y.allows(p.y)
}

// A stretch takes no more than `room` entries. They are written to `list` if `WRITE`, and else only counted.
// A count has no list, so `room` stands beside it: a trait with a counter and a list as its two kinds is no plainer.
impl Course {
    // Whether the walk goes on at p and p lies in the image.
    fn is_inside(self, p: Vec2) -> bool
        ensures { result ≡ in_ranges_of self.walk.x self.walk.y p && on_image self.image.width self.image.height p }
    {
        self.walk.spans(p) && self.image.contains(p)
    }

    // The stretch from its first position on, by the two coordinates' limits.
    fn run<const WRITE: bool, X: Limit, Y: Limit>(
        self,
        list: &mut [u32],
        room: usize,
        x: X,
        y: Y,
    ) -> Reached
        requires room { WRITE ≡ true → room ≤ length list.old }
        requires x { Limits (X.test x) self.walk.x (of_int binary32 (pos self.image.width)) self.first.steps }
        requires y { Limits (Y.test y) self.walk.y (of_int binary32 (pos self.image.height)) self.first.steps }
        ensures { Stretch WRITE self.image.width self.image.height self.walk.x self.walk.y room result list.old list.new }
    {
        let mut position = self.first.position;
        for count in 0..room {
            if !allow(x, y, position) {
                return Reached {
                    count,
                    steps: self.first.steps + count,
                    position,
                };
            }
            if WRITE {
                list[count] = pixel_inside(self.image, position);
            }
            position = self.walk.next(position);
        }
        Reached {
            count: room,
            steps: self.first.steps + room,
            position,
        }
    }

    // The same with the limit of the rows chosen here.
    fn along_rows<const WRITE: bool, X: Limit>(self, list: &mut [u32], room: usize, x: X) -> Reached
        requires room { WRITE ≡ true → room ≤ length list.old }
        requires lies { inside self.image.width self.image.height self.walk.x self.walk.y self.first.steps ≡ true }
        requires x { Limits (X.test x) self.walk.x (of_int binary32 (pos self.image.width)) self.first.steps }
        ensures { Stretch WRITE self.image.width self.image.height self.walk.x self.walk.y room result list.old list.new }
    {
        match choose(self.walk.y, self.image.height as f32) {
            Choice::AtLeast(low) => self.run::<WRITE, X, AtLeast>(list, room, x, AtLeast(low)),
            Choice::AtMost(high) => self.run::<WRITE, X, AtMost>(list, room, x, AtMost(high)),
            Choice::Below(end) => self.run::<WRITE, X, Below>(list, room, x, Below(end)),
        }
    }

    // The same with both limits chosen.
    pub(crate) fn stretch<const WRITE: bool>(self, list: &mut [u32], room: usize) -> Reached
        requires room { WRITE ≡ true → room ≤ length list.old }
        ensures { Stretch WRITE self.image.width self.image.height self.walk.x self.walk.y room result list.old list.new }
    {
        if !self.is_inside(self.first.position) {
            return self.first;
        }
        match choose(self.walk.x, self.image.width as f32) {
            Choice::AtLeast(low) => self.along_rows::<WRITE, AtLeast>(list, room, AtLeast(low)),
            Choice::AtMost(high) => self.along_rows::<WRITE, AtMost>(list, room, AtMost(high)),
            Choice::Below(end) => self.along_rows::<WRITE, Below>(list, room, Below(end)),
        }
    }

    // Whether a list with this room is long enough, by a count of the entries.
    pub(crate) fn has_room(self, room: usize) -> bool
        ensures { result ≡ nat_le (length (entered self.image.width self.image.height self.walk.x self.walk.y (exit self.walk.x self.walk.y))) room }
    {
        let last = self.stretch::<false>(&mut [], room);
        !self.is_inside(last.position)
    }

    // The position at which the walk leaves the ranges of its ends.
    pub(crate) fn leave(self, reached: Reached) -> Vec2
        requires at { reached.position ≡ position self.walk.x self.walk.y reached.steps }
        requires few { reached.steps ≤ exit self.walk.x self.walk.y }
        ensures { result ≡ position self.walk.x self.walk.y (exit self.walk.x self.walk.y) }
    {
        let mut position = reached.position;
        for _steps in reached.steps..MOST_STEPS {
            if !self.walk.spans(position) {
                return position;
            }
            position = self.walk.next(position);
        }
        position
    }
}
