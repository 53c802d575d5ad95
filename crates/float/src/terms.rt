// Numbers of up to 128 binary digits, with a sign and an exponent.
ghost use Rattle.std.specs.Prelude.{◌≡◌, ◌-◌, ◌^◌, ◌<◌, ◌≤◌};
ghost use Rattle.std.specs.Float.Ieee.{unlike};
ghost use Rattle.float.specs.inner.Sticky.{Sticky};
ghost use Rattle.float.specs.inner.Terms.{Merged};

// The number ±size * 2^exponent, in a unit that its user names.
// Stays: `exponent < 8000` is asked in three places and is no ghost field: a literal of a struct with one takes no `..`, so `raised` and
// `plus` would name each field, and `raised` would ask it as well.
#[derive(Clone, Copy)]
pub(crate) struct Term {
    pub negative: bool,
    pub size: u128,
    pub exponent: u64,
}

// w / 2^d for any d, with what is cut off marked in the lowest bit.
pub(crate) fn shift_right_sticky(w: u128, d: u64) -> u128
    requires { 0 < w }
    ensures { Sticky w result (2 ^ d) }
{
    if d < 128 {
        let kept = w >> d;
        if kept << d == w { kept } else { kept | 1 }
    } else {
        1
    }
}

impl Term {
    // The same number at a larger exponent, with what is cut off marked in the lowest bit.
    pub(crate) fn raised(self, exponent: u64) -> Term
        requires { (0 < self.size) × (self.exponent ≤ exponent) }
        ensures size { Sticky self.size result.size (2 ^ (exponent - self.exponent)) }
        ensures rest { (result.negative ≡ self.negative) × (result.exponent ≡ exponent) }
    {
        Term {
            size: shift_right_sticky(self.size, exponent - self.exponent),
            exponent,
            ..self
        }
    }

    // The sum of two numbers with one exponent; of two that cancel, a zero.
    pub(crate) fn plus(self, other: Term) -> Term
        requires { (self.size < 2 ^ 126) × (other.size < 2 ^ 126) × (self.exponent ≡ other.exponent) }
        ensures size { Merged (unlike self.negative other.negative) self.size other.size (unlike self.negative result.negative) result.size }
        ensures exponent { result.exponent ≡ self.exponent }
    {
        let apart = self.negative != other.negative;
        let under = apart && self.size <= other.size;
        // Both, so that nothing branches on a sign.
        let sum = self.size + other.size;
        let difference = self.size.abs_diff(other.size);
        Term {
            negative: self.negative != under,
            size: if apart { difference } else { sum },
            ..self
        }
    }
}
