// Points and vectors.
#![tactic(auto)]

ghost use Rattle.std.specs.Prelude.{◌≡◌};
ghost use Rattle.vec2.specs.Values.{sub_of, dot_of, squared_length_of, length_of};

use types::Vec2;

// `a` - `b`, by component.
// Example: (3, 4), (1, 1) gives (2, 3).
#[unsafe(no_mangle)]
pub extern "C" fn bgz_vec2_sub(a: Vec2, b: Vec2) -> Vec2
    ensures { result ≡ sub_of a b }
{
    vec2::sub(a, b)
}

// `a.x * b.x + a.y * b.y`.
// Example: (1, 2), (3, 4) gives 11.
#[unsafe(no_mangle)]
pub extern "C" fn bgz_vec2_dot(a: Vec2, b: Vec2) -> f32
    ensures { result ≡ dot_of a b }
{
    vec2::dot(a, b)
}

// `p.x * p.x + p.y * p.y`.
// Example: (3, 4) gives 25.
#[unsafe(no_mangle)]
pub extern "C" fn bgz_vec2_squared_length(p: Vec2) -> f32
    ensures { result ≡ squared_length_of p }
{
    vec2::squared_length(p)
}

// The square root of the squared length, which may overflow to infinity or underflow to 0.
// Example: (3, 4) gives 5.
#[unsafe(no_mangle)]
pub extern "C" fn bgz_vec2_length(p: Vec2) -> f32
    ensures { result ≡ length_of p }
{
    vec2::length(p)
}
