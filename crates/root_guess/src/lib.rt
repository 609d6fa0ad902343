// The square root of an f32 by a guess that whole numbers confirm: the value that the crate root works digit by digit, in less time.
#![tactic(auto)]

ghost use Rattle.std.specs.Prelude.{◌≡◌, ◌^◌, ◌<◌, IfSome};
ghost use Rattle.std.specs.Float.{binary32};
ghost use Rattle.std.specs.Float.Ieee.{of_bits};
ghost use Rattle.root.specs.Root.{sqrt_of};

use float::LEADING;
use root::Parts;

// One step of Newton's method: from y to a number nearer to the inverse root of twice `half`.
fn newton_step(half: f64, y: f64) -> f64 {
    y * (1.5 - half * y * y)
}

// A guess at the root that `root_bits` looks for, from the same bits. It is confirmed there, so nothing is promised of it but that its square fits.
//
// The number is from 2 ^ 46 up and below 2 ^ 48. As an f64 it has the fraction of the f32 and, in the exponent's field, 1069 or 1070: the one that
// is odd or even as the f32's field is. A constant less half its pattern is the pattern of a first inverse root, with 4 right digits. Each step
// doubles them: after three, one guess in 8000 is not the root. The sum with 2 ^ 52 is a whole number, and the guess is its last 32 digits.
#[tactic(auto, using(crate::proofs::Numbers::not_nan_bits64))]
fn guess(bits: u32) -> Option<usize>
    ensures { IfSome result (λ root. root < 2 ^ 32) }
{
    let place = ((bits % 16777216 + LEADING) % 16777216) as u64;
    let pattern = 0x42d0_0000_0000_0000 + place * 536870912;
    let number = f64::from_bits(pattern);
    let half = f64::from_bits(pattern - 0x0010_0000_0000_0000);
    let first = f64::from_bits(0x5fe6_eb50_c7b5_37a9 - pattern / 2);
    let inverse = newton_step(half, newton_step(half, newton_step(half, first)));
    let root = number * inverse + 4503599627370496.0;
    if root.is_nan() {
        return None;
    }
    Some((f64::to_bits(root) % 4294967296) as usize)
}

// The bits of the root of a normal float above zero, by its bits; none for any other float, and where the guess is not confirmed.
// As in the crate root, the root's digits are those of √number rounded to a whole number, which is never halfway between two.
fn root_bits(bits: u32) -> Option<u32>
    ensures { IfSome result (λ root. (root < 0x7f80_0000) × (of_bits binary32 root ≡ sqrt_of (of_bits binary32 bits))) }
{
    let parts = Parts::of_normal(bits)?;
    let number = parts.number() as usize * LEADING as usize;
    let root = guess(bits)?;
    let square = root * root;
    // √number is below root - 1 / 2.
    if number + root <= square {
        return None;
    }
    // √number is above root + 1 / 2.
    if square + root < number {
        return None;
    }
    Some(parts.base() + root as u32)
}

// The square root, as `root::sqrt` gives it: a guess by Newton's method, taken where whole-number squares confirm it. Where they do not, and where
// the number is not a normal one above zero, the root's digits are worked. Both stay: the other works the digits one by one and ends where the root
// is exact, and lengths that must be fast take this one.
#[tactic(auto, using(crate::proofs::Confirmed::root_of_bits, root::proofs::Patterns::not_nan_bits))]
pub fn sqrt(x: f32) -> f32
    ensures { result ≡ sqrt_of x }
{
    if x > 0.0 {
        if let Some(found) = root_bits(f32::to_bits(x)) {
            return f32::from_bits(found);
        }
    }
    root::sqrt(x)
}
