// Absolute value, finiteness, minimum, maximum and clamp on f32. specs/Values.antt has what each returns; `finite` is the toolchain's.
#![tactic(auto, unfolding(crate::specs::Values::clamp_of, crate::specs::Values::lesser_of, crate::specs::Values::greater_of))]

ghost use Rattle.std.specs.Prelude.{◌≡◌};
ghost use Rattle.std.specs.Float.Ieee.Scale.{finite};
ghost use Rattle.float.specs.Values.{abs_of, min_of, max_of, clamp_of, lesser_of, greater_of, number_or_of};

// 2 ^ 23: the weight of the leading one of an f32's 24 binary digits, and of the exponent's field among its bits.
pub const LEADING: u32 = 1 << 23;

#[tactic(auto, using(crate::proofs::Library::without_sign))]
pub fn abs(x: f32) -> f32
    ensures { result ≡ abs_of x }
{
    x.abs()
}

// Neither infinite nor a NaN.
#[tactic(auto, using(crate::proofs::Library::is_finite))]
pub fn is_finite(x: f32) -> bool
    ensures { result ≡ finite x }
{
    x.is_finite()
}

// The smaller of two numbers, and of two zeros the first. Where one is a NaN, the other one.
#[tactic(auto, unfolding(crate::specs::Values::min_of))]
pub fn min(a: f32, b: f32) -> f32
    ensures { result ≡ min_of a b }
{
    if a.is_nan() {
        b
    } else if b < a {
        b
    } else {
        a
    }
}

// The larger of two numbers, and of two zeros the first. Where one is a NaN, the other one.
#[tactic(auto, unfolding(crate::specs::Values::max_of))]
pub fn max(a: f32, b: f32) -> f32
    ensures { result ≡ max_of a b }
{
    if a.is_nan() {
        b
    } else if b > a {
        b
    } else {
        a
    }
}

// `low` where x is below it, else `high` where x is above it, else x, a NaN too. Two bounds, as the standard library's clamp takes them: crate types,
// which has `Range`, stands above this one.
pub fn clamp(x: f32, low: f32, high: f32) -> f32
    ensures { result ≡ clamp_of x low high }
{
    if x < low {
        low
    } else if x > high {
        high
    } else {
        x
    }
}

// The minimum by one comparison. It is `min` wherever a is a number. proofs/Laws.antt says when it may stand for `min`.
pub fn lesser(a: f32, b: f32) -> f32
    ensures { result ≡ lesser_of a b }
{
    if b < a { b } else { a }
}

// The maximum by one comparison. It is `max` wherever a is a number.
pub fn greater(a: f32, b: f32) -> f32
    ensures { result ≡ greater_of a b }
{
    if b > a { b } else { a }
}

// a, or b where a is a NaN.
#[tactic(auto, unfolding(crate::specs::Values::number_or_of))]
pub fn number_or(a: f32, b: f32) -> f32
    ensures { result ≡ number_or_of a b }
{
    if a.is_nan() { b } else { a }
}
