// What a float of a hatch list is kept as in memory: as its 32 bits, or as the float of these bits. The bits of a NaN are kept by the first alone:
// the patterns of every NaN are read as one float, the NaN of `Rattle.std.specs.Float`, and that is written as 7fc00000.
#![tactic(auto)]

ghost use Rattle.std.specs.Prelude.{◌≡◌, ◌<◌, ◌^◌, ℕ, T, not, refl};
ghost use Rattle.std.specs.Float.{binary32};
ghost use Rattle.std.specs.Float.Ieee.{nan, inf, fin, fits, is_nan, of_bits, to_bits};
ghost use mathlib.Core.Path.{sym, subst};
ghost use lib.Ieee.Bits.{of_bits-to_bits, to_bits-lt, to_bits-of_bits, nan_bits_is};
ghost use Rattle.bits.specs.Patterns.{AnyBits, OneNan};

use std::num::{f32_from_bits_with_nan, f32_to_bits_with_nan};

pub trait Entry: Copy {
    // What is known of every value of the type.
    ghost Fits: { Self → Type 0 };

    // Which patterns are written as they were read.
    ghost Keeps: { ℕ → Type 0 };

    // What a pattern is read as, and what a value is written as.
    ghost of_bits: { ℕ → Self };

    ghost bits_of: { Self → ℕ };

    fn from_word(word: u32) -> Self
        ensures { result ≡ of_bits word };

    fn to_word(self) -> u32
        ensures { result ≡ bits_of self };

    // A value is written in 32 bits. Read again, it is the same value; and a pattern that was read is written again as it was.
    ghost bits_below: { (x : Self) → Fits x → bits_of x < 2 ^ 32 };

    ghost kept: { (x : Self) → Fits x → of_bits (bits_of x) ≡ x };

    ghost pattern_kept: { (p : ℕ) → p < 2 ^ 32 → Keeps p → bits_of (of_bits p) ≡ p };
}

impl Entry for u32 {
    ghost Fits = { λ bits. bits < 2 ^ 32 };

    ghost Keeps = { AnyBits };

    ghost of_bits = { λ bits. bits };

    ghost bits_of = { λ bits. bits };

    fn from_word(word: u32) -> u32 {
        word
    }

    fn to_word(self) -> u32 {
        self
    }

    ghost bits_below = { λ bits fits. fits };

    ghost kept = { λ bits fits. refl };

    ghost pattern_kept = { λ p below any. refl };
}

impl Entry for f32 {
    ghost Fits = { λ x. T (fits binary32 x) };

    ghost Keeps = { OneNan };

    ghost of_bits = { of_bits binary32 };

    ghost bits_of = { to_bits binary32 };

    fn from_word(word: u32) -> f32 {
        f32_from_bits_with_nan(word)
    }

    fn to_word(self) -> u32 {
        f32_to_bits_with_nan(self)
    }

    ghost bits_below = { to_bits-lt binary32 };

    ghost kept = { of_bits-to_bits binary32 };

    // By what the pattern is read as: the NaN has one pattern, and any other float's bits are those that it was read from.
    ghost pattern_kept = { λ p below one. unfold is_nan to_bits in
        elim (of_bits binary32 p) as (λ x. (T (is_nan x) → p ≡ 0x7fc0_0000) → (T (not (is_nan x)) → to_bits binary32 x ≡ p) → to_bits binary32 x ≡ p)
        [ nan ↦ λ a b. sym (a tt) | inf s ↦ λ a b. b tt | fin s m e ↦ λ a b. b tt ]
        (λ n. one (subst T (sym (nan_bits_is binary32 p)) n)) (to_bits-of_bits binary32 p below) };
}
