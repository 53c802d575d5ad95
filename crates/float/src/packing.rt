// From a number of up to 128 digits to the nearest f64's pattern.
ghost use Rattle.std.specs.Prelude.{◌≡◌, ℕ, ◌+◌, ◌*◌, ◌^◌, ◌<◌, ◌≤◌, ◌⊎◌, if◌then◌else◌, nat_lt, to_bits};
ghost use Rattle.std.specs.Float.{binary64};
ghost use Rattle.std.specs.Float.Ieee.{units};
ghost use Rattle.std.specs.Float.Ieee.Nearest.{closest};
ghost use Rattle.float.specs.inner.Sticky.{Sticky, ExactOrSticky};
ghost use Rattle.float.specs.inner.Rounded.{rounded};

use crate::terms::{Term, shift_right_sticky};

// w / 2^d to the nearest, a tie to the even one.
fn nearest_even(w: u64, d: u64) -> u64
    requires { (2 ≤ d) × (d ≤ 64) }
    ensures { result ≡ closest w (2 ^ d) }
{
    let h = w >> (d - 1);
    let q = h / 2;
    if h % 2 == 0 {
        q
    } else if h << (d - 1) == w {
        q + q % 2
    } else {
        q + 1
    }
}

// w / 2^11 to the nearest, a tie to the even one.
// Stays: `nearest_even(w, 11)` in its place was tried, and a `mul_add` of near numbers then takes a quarter longer.
fn nearest_even_53(w: u64) -> u64
    ensures { result ≡ closest w (2 ^ 11) }
{
    let q = w / 2048;
    q + (w % 2048 + q % 2 + 1023) / 2048
}

// The pattern of q * 2^k units of 2^-1074, without its sign: an infinity's where that is too large.
fn magnitude(q: u64, k: u64) -> u64
    requires { q ≤ 2 ^ 53 }
    ensures { result ≡ (if nat_lt k 2046 then k * 2 ^ 52 + q else 2047 * 2 ^ 52) }
{
    if k < 2046 {
        k * 0x10_0000_0000_0000 + q
    } else {
        0x7ff0_0000_0000_0000
    }
}

// The pattern of q * 2^k units, with its sign. Below 2^52, q is a subnormal's, and k is 0.
fn pattern(negative: bool, q: u64, k: u64) -> u64
    requires { (q ≤ 2 ^ 53) × ((k ≡ 0) ⊎ (2 ^ 52 ≤ q)) }
    ensures { result ≡ to_bits binary64 (units binary64 negative q k) }
{
    let n = magnitude(q, k);
    if negative {
        0x8000_0000_0000_0000 + n
    } else {
        n
    }
}

// The pattern of the f64 nearest to ±m / 2^2336, where w, whose highest bit is set, is m / 2^x with a sticky bit.
fn rounded(negative: bool, w: u64, x: u64) -> u64
    requires { (2 ^ 63 ≤ w) × (x < 8192) }
    ensures { (m : ℕ) → Sticky m w (2 ^ x) → result ≡ to_bits binary64 (rounded 1262 negative m) }
{
    let tiny = x < 1198;
    if tiny {
        pattern(negative, 0, 0)
    } else if x < 1251 {
        pattern(negative, nearest_even(w, 1262 - x), 0)
    } else {
        pattern(negative, nearest_even_53(w), x - 1251)
    }
}

// The pattern of the f64 nearest to ±m / 2^2272, where the number is m / 2^exponent, exactly or with a sticky bit: it is shifted by
// its leading zeros.
pub(crate) fn normalised(number: Term) -> u64
    requires { (0 < number.size) × (number.exponent < 8000) }
    ensures { (m : ℕ) → ExactOrSticky m number.size (2 ^ number.exponent) → result ≡ to_bits binary64 (rounded 1198 number.negative m) }
{
    let zeros = number.size.leading_zeros();
    let top = shift_right_sticky(number.size << zeros, 64) as u64;
    rounded(
        number.negative,
        top,
        number.exponent + 128 - u64::from(zeros),
    )
}
