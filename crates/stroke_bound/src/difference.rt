// The larger difference between two points, exact and rounded up to a whole number.
ghost use Rattle.std.specs.Prelude.{◌≡◌, false, ◌^◌, ◌≤◌};
ghost use Rattle.std.specs.Float.Ieee.{lt};
ghost use Rattle.rounded.specs.Size.{Size};
ghost use Rattle.stroke_bound.specs.Bound.{difference_of, up_to, larger_difference_of};

use stroke::Accepted;
use types::Range;

// high - low, exact and rounded up. Let n be the whole part of the rounded difference. The answer is n, or n + 1 if high - n is above low.
// The first test rounds high - n. Rounding keeps an order, so a rounded number above low comes of an exact one above low. Where high is the larger of
// the two in size, nothing is rounded, so that the test decides. Where low is, it is -low - n that is exact, and the second test decides.
fn rise(range: Range) -> usize
    requires { (Size 65536 range.low × Size 65536 range.high) × (lt range.high range.low ≡ false) }
    ensures { (result ≡ up_to (2 ^ 149) (difference_of range.low range.high)) × (result ≤ 131073) }
{
    let Range { low, high } = range;
    let n = rounding::to_usize(high - low);
    let whole = n as f32;
    let is_one_less = (low < high - whole) | (-high < -low - whole);
    if is_one_less {
        return n + 1;
    }
    n
}

// The size of the difference of x and y, exact and rounded up. `rise` asks for the two in order. Three contracts say the same bound, by which the next
// sum cannot overflow: a type for it would be made and taken apart at each of them.
fn rounded_up(x: f32, y: f32) -> usize
    requires { Size 65536 x × Size 65536 y }
    ensures { (result ≡ up_to (2 ^ 149) (difference_of x y)) × (result ≤ 131073) }
{
    if y < x {
        rise(Range { low: y, high: x })
    } else {
        rise(Range { low: x, high: y })
    }
}

// The larger of the differences between a stroke's ends in x and in y, exact and rounded up.
pub(crate) fn larger_difference(stroke: Accepted) -> usize
    ensures { (result ≡ larger_difference_of stroke.p0 stroke.p1) × (result ≤ 131073) }
{
    let Accepted { p0, p1, .. } = stroke;
    rounded_up(p0.x, p1.x).max(rounded_up(p0.y, p1.y))
}
