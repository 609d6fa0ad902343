// Rounding to whole numbers: floor and ceiling as floats, and Rust's `as` to integers.
#![tactic(auto)]

ghost use Rattle.std.specs.Prelude.{◌≡◌, true, false, pos};
ghost use Rattle.std.specs.Float.{fin};
ghost use Rattle.std.specs.Float.Ieee.{le, lt, to_signed, to_unsigned};
ghost use Rattle.rounding.specs.Values.{floor_of, ceil_of};
ghost use Rattle.rounding.specs.Integral.{TowardNegative, TowardPositive};
ghost use Rattle.rounding.specs.Promise.{RoundsToIntegral};

use float::LEADING;

// The whole part of a number from 1 up to 2 ^ 24: its 24 digits, less those behind the point.
// std's cast takes larger numbers too, and goes by f64, which costs more.
fn whole_part(x: f32) -> u32
    requires { (le (fin false 1 (pos 0)) x ≡ true) × (lt x (fin false 1 (pos 24)) ≡ true) }
    ensures { result ≡ to_unsigned 32 x }
{
    let bits = f32::to_bits(x);
    (bits % LEADING + LEADING) >> (150 - bits / LEADING)
}

// The greatest whole number that is not above x, with x's sign. From 2 ^ 23 up an f32 has no fraction.
pub fn floor(x: f32) -> f32
    ensures { RoundsToIntegral TowardNegative floor_of x result }
{
    let a = -x;
    if x >= 1.0 {
        if x < 8388608.0 {
            whole_part(x) as f32
        } else {
            x
        }
    } else if a >= 1.0 {
        if a < 8388608.0 {
            let n = whole_part(a);
            let t = n as f32;
            if t < a { -((n + 1) as f32) } else { -t }
        } else {
            x
        }
    } else if x > 0.0 {
        0.0
    } else if x < 0.0 {
        -1.0
    } else {
        x
    }
}

// The least whole number that is not below x, with x's sign.
pub fn ceil(x: f32) -> f32
    ensures { RoundsToIntegral TowardPositive ceil_of x result }
{
    -floor(-x)
}

// The casts go toward zero, are held at the type's ends, and give 0 for a NaN. Most numbers are below 2 ^ 24, so that is tested first.
pub fn to_usize(x: f32) -> usize
    ensures { result ≡ to_unsigned 64 x }
{
    if x >= 1.0 {
        if x < 16777216.0 {
            whole_part(x) as usize
        } else if x < 18446744073709551616.0 {
            std::num::truncating_f32_to_u64(x) as usize
        } else {
            usize::MAX
        }
    } else {
        0
    }
}

// Below 2 ^ 24 the cut costs nothing: the whole part shows LLVM that it is small.
#[tactic(auto, using(crate::proofs::Sizes::unsigned_narrow))]
pub fn to_u32(x: f32) -> u32
    ensures { result ≡ to_unsigned 32 x }
{
    to_usize(x).min(u32::MAX as usize) as u32
}

// The size of a negative number may be 2 ^ 31.
pub fn to_i32(x: f32) -> i32
    ensures { result ≡ to_signed 31 x }
{
    if x < 0.0 {
        let size = to_usize(-x).min(1 << 31) as i64;
        -size as i32
    } else {
        to_usize(x).min(i32::MAX as usize) as i32
    }
}
