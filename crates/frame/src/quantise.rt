// From D to the number that is clamped to a nibble, in whole numbers.
ghost use Rattle.std.specs.Prelude.{◌≡◌, ◌≤◌, ◌*◌, ◌^◌, nat_abs};
ghost use Rattle.std.specs.Float.Ieee.Nearest.{closest};
ghost use Rattle.frame.specs.Quantise.{round24, scale, nearest_down, with_sign, quantise};

use crate::exponent::Exponent;

// n with the sign of z.
fn with_sign(z: i64, n: u64) -> i64
    requires { n ≤ 4294967296 }
    ensures { result ≡ with_sign z n }
{
    if z < 0 { -(n as i64) } else { n as i64 }
}

// m / 2^k to the nearest whole number, a tie to the even one.
// Stays: crate float's of this name is its own and takes all 64 bits by branches; m is short here, so a sum and a shift say it.
fn nearest_even(m: u64, k: u32) -> u64
    requires m_bound { m ≤ 2147483648 }
    requires le_k { (1 ≤ k) × (k ≤ 8) }
    ensures { result ≡ closest m (2 ^ k) }
{
    let q = m >> k;
    let half = 1u64 << (k - 1);
    (m + half - 1 + q % 2) >> k
}

// m, of more than 24 bits, to 24 significant bits, a tie to the even one.
fn round_24(m: u64) -> u64
    requires m_bound { m ≤ 2147483648 }
    requires le_m { 16777216 ≤ m }
    ensures { result ≡ round24 m }
{
    let k = 40 - m.leading_zeros();
    nearest_even(m, k) * (1u64 << k)
}

// D to 24 significant bits.
fn rounded(d: i64) -> i64
    requires { nat_abs d ≤ 2147483648 }
    ensures { result ≡ with_sign d (round24 (nat_abs d)) }
{
    let m = d.unsigned_abs();
    let short = m < 16777216;
    if short {
        return d;
    }
    with_sign(d, round_24(m))
}

// d / (2048 * 2^p) to the nearest whole number, halves towards zero.
fn nearest(d: i64, p: Exponent) -> i64
    requires { nat_abs d ≤ 4294967296 }
    ensures { result ≡ with_sign d (nearest_down (nat_abs d) (scale p.value)) }
{
    let half = 1024 * (1i64 << p.value);
    let above = 0 < d;
    if above {
        (d + half - 1) >> (p.value + 11)
    } else {
        (d + half) >> (p.value + 11)
    }
}

// D to 24 significant bits, over 2048 * 2^p, to the nearest, halves towards zero.
pub(crate) fn quantise(d: i64, p: Exponent) -> i64
    requires { nat_abs d ≤ 2147483648 }
    ensures { result ≡ quantise d p.value }
{
    nearest(rounded(d), p)
}
