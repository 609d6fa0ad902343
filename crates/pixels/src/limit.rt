// A coordinate never turns back. So once a position is in the image and in the ranges of the stroke's ends, one comparison tells whether the
// coordinate stays in both. There are three: which one it is follows from the coordinate's direction, and from which of the two ends first.
// A NaN passes none: on a processor set to flush subnormals a slope may be 0 / 0, and then the stretch ends.
ghost use Rattle.std.specs.Prelude.{◌≡◌, Bool, Float};
ghost use Rattle.pixels.specs.Limit.{at_least, at_most, below, choice_of};

use stroke::Axis;

pub(crate) trait Limit: Copy {
    ghost test: { Self → Float → Bool };

    fn allows(self, x: f32) -> bool
        ensures { result ≡ test self x };
}

#[derive(Clone, Copy, Debug, PartialEq)]
pub(crate) struct AtLeast(pub(crate) f32);

impl Limit for AtLeast {
    ghost test = { λ limit x. at_least limit.0 x };

    fn allows(self, x: f32) -> bool {
        x >= self.0
    }
}

#[derive(Clone, Copy, Debug, PartialEq)]
pub(crate) struct AtMost(pub(crate) f32);

impl Limit for AtMost {
    ghost test = { λ limit x. at_most limit.0 x };

    fn allows(self, x: f32) -> bool {
        x <= self.0
    }
}

#[derive(Clone, Copy, Debug, PartialEq)]
pub(crate) struct Below(pub(crate) f32);

impl Limit for Below {
    ghost test = { λ limit x. below limit.0 x };

    fn allows(self, x: f32) -> bool {
        x < self.0
    }
}

// Which of the three is chosen, and the number with which it compares.
#[derive(Clone, Copy, Debug, PartialEq)]
pub(crate) enum Choice {
    AtLeast(f32),
    AtMost(f32),
    Below(f32),
}

// A coordinate that falls stays until its range's low end or 0. Any other stays until its range's high end or the side. stretch.rt makes each choice
// a type, once for the columns and once for the rows: so its loop is compiled for each pair of limits, with no test of a choice in it.
pub(crate) fn choose(axis: Axis, side: f32) -> Choice
    ensures { result ≡ choice_of axis side }
{
    if axis.slope < 0.0 {
        Choice::AtLeast(float::greater(axis.low, 0.0))
    } else if axis.high < side {
        Choice::AtMost(axis.high)
    } else {
        Choice::Below(side)
    }
}
