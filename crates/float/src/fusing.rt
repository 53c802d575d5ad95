// The exact product and sum of three numbers, by their patterns.
ghost use Rattle.std.specs.Prelude.{◌≡◌, ℕ, ◌+◌, ◌*◌, ◌/◌, ◌%◌, ◌^◌, ◌<◌, true, from_bits, nat_le, to_bits};
ghost use Rattle.std.specs.Float.{binary64};
ghost use Rattle.float.specs.FusedMultiplyAdd.{fused_multiply_add};
ghost use Rattle.float.specs.inner.Operands.{is_plain, is_normal, are_near, Plain, Decomposed};
ghost use Rattle.float.specs.inner.Sticky.{Aligned};
ghost use Rattle.float.specs.inner.Rounded.{signed_sum};
ghost use Rattle.float.specs.inner.Terms.{LeftJustified};

use crate::packing::normalised;
use crate::terms::Term;

// The pattern of ±a / 2^2272 + ±b / 2^2272, rounded once, where the two numbers are a / 2^e and b / 2^e, e being the exponent of
// both, perhaps one with a sticky bit.
fn signed_sum(p: Term, c: Term) -> u64
    requires { (p.size < 2 ^ 126) × (c.size < 2 ^ 126) × (0 < p.size) × (p.exponent ≡ c.exponent) × (p.exponent < 8000) }
    ensures { (a b : ℕ) → Aligned a p.size b c.size (2 ^ p.exponent) → result ≡ to_bits binary64 (signed_sum 1198 p.negative a c.negative b) }
{
    let sum = p.plus(c);
    if sum.size == 0 { 0 } else { normalised(sum) }
}

// The pattern of the sum of two numbers over 2^2272, rounded once: the one with the smaller exponent is shifted down to the
// other's.
fn aligned_sum(p: Term, c: Term) -> u64
    requires { LeftJustified p.size × LeftJustified c.size × (p.exponent < 8000) × (c.exponent < 8000) }
    ensures { result ≡ to_bits binary64 (signed_sum 1198 p.negative (p.size * 2 ^ p.exponent) c.negative (c.size * 2 ^ c.exponent)) }
{
    if c.exponent <= p.exponent {
        signed_sum(p, c.raised(p.exponent))
    } else {
        signed_sum(p.raised(c.exponent), c)
    }
}

// The sign, the 53 digits and their exponent of a number: it is ±digits * 2^exponent / 2^1126.
#[derive(Clone, Copy)]
struct Parts {
    pub negative: bool,
    pub digits: u64,
    pub exponent: u64,
}

// Whether a pattern has the sign's bit.
fn is_negative(n: u64) -> bool
    ensures { result ≡ nat_le (2 ^ 63) n }
{
    n >= 0x8000_0000_0000_0000
}

// The exponent's field of a pattern.
fn field(n: u64) -> u64
    ensures { result ≡ n % 2 ^ 63 / 2 ^ 52 }
{
    n % 0x8000_0000_0000_0000 / 0x10_0000_0000_0000
}

// Whether a pattern is a normal number's.
// Stays: the library's `is_normal` is of an f64, and the field of the pattern is needed here in any case.
#[tactic(auto, unfolding(crate::specs::inner::Operands::is_normal))]
fn is_normal(n: u64) -> bool
    ensures { result ≡ is_normal n }
{
    let exponent = field(n);
    0 < exponent && exponent < 2047
}

// The parts of a normal number, by its pattern.
fn normal_parts(n: u64) -> Parts
    requires { is_normal n ≡ true }
    ensures parts { Decomposed (from_bits binary64 n) result.negative result.digits result.exponent }
    ensures exponent { result.exponent ≡ n % 2 ^ 63 / 2 ^ 52 + 51 }
{
    Parts {
        negative: is_negative(n),
        digits: 0x10_0000_0000_0000 + n % 0x10_0000_0000_0000,
        exponent: field(n) + 51,
    }
}

// The parts of a finite number that is not a zero, by its pattern.
fn decomposed(n: u64) -> Parts
    requires { Plain n }
    ensures { Decomposed (from_bits binary64 n) result.negative result.digits result.exponent }
{
    if field(n) != 0 {
        return normal_parts(n);
    }
    let fraction = n % 0x10_0000_0000_0000;
    let up = u64::from(fraction.leading_zeros()) - 11;
    Parts {
        negative: is_negative(n),
        digits: fraction << up,
        exponent: 52 - up,
    }
}

// The pattern of the fused multiply-add of three numbers, by their patterns.
pub(crate) fn fused(a: u64, b: u64, c: u64) -> u64
    requires { Plain a × Plain b × Plain c }
    ensures { result ≡ to_bits binary64 (fused_multiply_add binary64 (from_bits binary64 a) (from_bits binary64 b) (from_bits binary64 c)) }
{
    let x = decomposed(a);
    let y = decomposed(b);
    let z = decomposed(c);
    let product = Term {
        negative: x.negative != y.negative,
        size: u128::from(x.digits * 1024) * u128::from(y.digits * 1024),
        exponent: x.exponent + y.exponent,
    };
    let addend = Term {
        negative: z.negative,
        size: u128::from(z.digits * 512) << 64,
        exponent: z.exponent + 1073,
    };
    aligned_sum(product, addend)
}

// Whether three numbers are normal and have all the digits of x * y and z within 128, by their patterns.
#[tactic(auto, unfolding(crate::specs::inner::Operands::are_near))]
pub(crate) fn are_near(x: u64, y: u64, z: u64) -> bool
    ensures { result ≡ are_near x y z }
{
    if !(is_normal(x) && is_normal(y) && is_normal(z)) {
        return false;
    }
    let p = field(x) + field(y);
    let q = field(z) + 1002;
    q <= p && p - q < 64
}

// The same as `fused` for three numbers that are near: no digit is cut off before the sum is rounded.
// Stays: `fused` holds of these too; this one, without its shift by any distance, is for speed (docs/PROVING.md, "Speed").
pub(crate) fn fused_near(x: u64, y: u64, z: u64) -> u64
    requires { are_near x y z ≡ true }
    ensures { result ≡ to_bits binary64 (fused_multiply_add binary64 (from_bits binary64 x) (from_bits binary64 y) (from_bits binary64 z)) }
{
    let x = normal_parts(x);
    let y = normal_parts(y);
    let z = normal_parts(z);
    let exponent = x.exponent + y.exponent + 20;
    let product = Term {
        negative: x.negative != y.negative,
        size: u128::from(x.digits) * u128::from(y.digits),
        exponent,
    };
    let addend = Term {
        negative: z.negative,
        size: u128::from(z.digits) << (z.exponent + 1146 - exponent),
        exponent,
    };
    signed_sum(product, addend)
}

// Whether x is finite and not a zero.
pub(crate) fn is_plain(x: f64) -> bool
    ensures { result ≡ is_plain x }
{
    x.is_finite() && x != 0.0
}
