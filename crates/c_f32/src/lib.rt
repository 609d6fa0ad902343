// Float helpers.
#![tactic(auto)]

ghost use Rattle.std.specs.Prelude.{◌≡◌};
ghost use Rattle.std.specs.Float.Ieee.{to_signed, to_unsigned};
ghost use Rattle.float.specs.Values.{abs_of, min_of, max_of, clamp_of};
ghost use Rattle.float.specs.MinMax.{MinimumPicks, MaximumPicks};
ghost use Rattle.rounding.specs.Values.{floor_of, ceil_of};
ghost use Rattle.rounding.specs.Integral.{TowardNegative, TowardPositive};
ghost use Rattle.rounding.specs.Promise.{RoundsToIntegral};
ghost use Rattle.root.specs.Promise.{SquareRoot};
ghost use Rattle.root.specs.Digits.{DigitsWorked};

use root::SqrtDigits;

// The absolute value: the sign is dropped, that of -0 too.
// Example: -1.5 gives 1.5.
#[unsafe(no_mangle)]
pub extern "C" fn bgz_f32_abs(x: f32) -> f32
    ensures { result ≡ abs_of x }
{
    float::abs(x)
}

// The smaller of two numbers. Of two zeros it is the first, and of a NaN and a number the number.
// Example: 2, -1 gives -1.
#[unsafe(no_mangle)]
#[tactic(auto, using(float::proofs::MinMax::minimum_picks))]
pub extern "C" fn bgz_f32_min(a: f32, b: f32) -> f32
    ensures answers { result ≡ min_of a b }
    ensures laws { MinimumPicks }
{
    float::min(a, b)
}

// The larger of two numbers. Of two zeros it is the first, and of a NaN and a number the number.
// Example: 2, -1 gives 2.
#[unsafe(no_mangle)]
#[tactic(auto, using(float::proofs::MinMax::maximum_picks))]
pub extern "C" fn bgz_f32_max(a: f32, b: f32) -> f32
    ensures answers { result ≡ max_of a b }
    ensures laws { MaximumPicks }
{
    float::max(a, b)
}

// `low` if `x` is below `low`, else `high` if `x` is above `high`, else `x`, a NaN too. Any `low` and `high` are taken.
// Example: 5, 0, 1 gives 1.
#[unsafe(no_mangle)]
pub extern "C" fn bgz_f32_clamp(x: f32, low: f32, high: f32) -> f32
    ensures { result ≡ clamp_of x low high }
{
    float::clamp(x, low, high)
}

// The greatest whole number that is not above `x`. The sign is kept, that of a zero too; a NaN and an infinity give themselves.
// Example: -1.5 gives -2.
#[unsafe(no_mangle)]
pub extern "C" fn bgz_f32_floor(x: f32) -> f32
    ensures { RoundsToIntegral TowardNegative floor_of x result }
{
    rounding::floor(x)
}

// The least whole number that is not below `x`. The sign is kept, so -0.5 gives -0; a NaN and an infinity give themselves.
// Example: 1.25 gives 2.
#[unsafe(no_mangle)]
pub extern "C" fn bgz_f32_ceil(x: f32) -> f32
    ensures { RoundsToIntegral TowardPositive ceil_of x result }
{
    rounding::ceil(x)
}

// `x` cut toward zero to an integer and held from -2^31 to 2^31 - 1; 0 for a NaN.
// Example: -1.75 gives -1.
#[unsafe(no_mangle)]
pub extern "C" fn bgz_f32_to_i32(x: f32) -> i32
    ensures { result ≡ to_signed 31 x }
{
    rounding::to_i32(x)
}

// `x` cut toward zero to an integer and held from 0 to 2^32 - 1; 0 for a NaN.
// Example: 1.75 gives 1.
#[unsafe(no_mangle)]
pub extern "C" fn bgz_f32_to_u32(x: f32) -> u32
    ensures { result ≡ to_unsigned 32 x }
{
    rounding::to_u32(x)
}

// `x` cut toward zero to an integer and held from 0 to 2^64 - 1; 0 for a NaN.
// Example: -1.75 gives 0.
#[unsafe(no_mangle)]
pub extern "C" fn bgz_f32_to_usize(x: f32) -> usize
    ensures { result ≡ to_unsigned 64 x }
{
    rounding::to_usize(x)
}

// The float nearest to the square root. A zero and +infinity give themselves; an `x` below 0 and a NaN give a NaN.
// Example: 2.25 gives 1.5.
#[unsafe(no_mangle)]
pub extern "C" fn bgz_f32_sqrt(x: f32) -> f32
    ensures { SquareRoot x result }
{
    root::sqrt(x)
}

// The square root as `f32::sqrt` gives it, and how many of its binary digits were worked, from the leading 1: up to the last 1 of an exact
// root, at most 12 of them, and 24 of any other. 0 for a NaN, a zero, an infinity and an `x` below 0.
// Example: 6.25 gives (2.5, 3).
#[unsafe(no_mangle)]
pub extern "C" fn bgz_f32_sqrt_digits(x: f32) -> SqrtDigits
    ensures root { SquareRoot x result.root }
    ensures digits { DigitsWorked x result.root result.digits }
{
    root::sqrt_digits(x)
}
