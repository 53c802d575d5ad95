// The float kit: f64's `mul_add`, `abs`, `max`, `min` and `round`, for every input.
#![tactic(auto)]

ghost use Rattle.std.specs.Prelude.{◌≡◌};
ghost use Rattle.std.specs.Float.{binary64};
ghost use Rattle.float.specs.FusedMultiplyAdd.{fused_multiply_add};
ghost use Rattle.float.specs.Operations as Op;

mod fusing;
mod packing;
mod terms;

use fusing::{are_near, fused, fused_near, is_plain};

// The same as `mul_add`, by cases that hold for every input.
fn mul_add_any(a: f64, b: f64, c: f64) -> f64
    ensures { result ≡ fused_multiply_add binary64 a b c }
{
    // The product of a NaN, an infinity or a zero is exact.
    if !is_plain(a) || !is_plain(b) {
        return a * b + c;
    }
    if is_plain(c) {
        let r = fused(a.to_bits(), b.to_bits(), c.to_bits());
        return f64::from_bits(r);
    }
    // To a zero the product is added, rounded; an infinity and a NaN stay.
    if c == 0.0 { a * b } else { c }
}

// a * b + c, rounded once: IEEE 754-2019's fusedMultiplyAdd, to the nearest, a tie to the even one.
// Stays: docs/TRACE.md asks for whole numbers and a shift by leading zeros (`normalised`), and edits of must-fail/ and
// more-must-fail/ turn the roundings of this crate. The library's `mul_add` takes another way, through floats, and has its
// roundings to itself.
// Stays: three numbers, here and by their patterns in `fusing`, as the standard has them: a struct of the three would be made
// only to be taken apart.
pub fn mul_add(a: f64, b: f64, c: f64) -> f64
    ensures { result ≡ fused_multiply_add binary64 a b c }
{
    // A NaN has no pattern.
    if a.is_nan() || b.is_nan() || c.is_nan() {
        return mul_add_any(a, b, c);
    }
    let x = a.to_bits();
    let y = b.to_bits();
    let z = c.to_bits();
    if are_near(x, y, z) {
        return f64::from_bits(fused_near(x, y, z));
    }
    mul_add_any(a, b, c)
}

// |x|.
pub fn abs(x: f64) -> f64
    ensures { result ≡ Op.abs x }
{
    x.abs()
}

// Whether a is less than b, where -0 is less than +0.
// Stays: the library's `total_cmp` takes no NaN, and its `max` and `min` leave open which of two zeros they give.
#[tactic(auto, using(crate::proofs::LessThan::equal_number))]
fn is_less(a: f64, b: f64) -> bool
    ensures { result ≡ Op.is_less a b }
{
    // Only zeros can be equal and have different signs.
    if a == b {
        a.is_sign_negative() && b.is_sign_positive()
    } else {
        a < b
    }
}

// The larger of a and b: of a NaN and a number the number, of -0 and +0 the latter.
pub fn max(a: f64, b: f64) -> f64
    ensures { result ≡ Op.maximum_number a b }
{
    if a.is_nan() || is_less(a, b) { b } else { a }
}

// The smaller of a and b: of a NaN and a number the number, of -0 and +0 the former.
// Stays: beside `max` it is one line; one function for both, told which by an argument, would be no plainer.
pub fn min(a: f64, b: f64) -> f64
    ensures { result ≡ Op.minimum_number a b }
{
    if a.is_nan() || is_less(b, a) { b } else { a }
}

// x to the nearest whole number, a half away from zero.
pub fn round(x: f64) -> f64
    ensures { result ≡ Op.round_to_integral_ties_to_away x }
{
    x.round()
}
