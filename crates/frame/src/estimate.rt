// The exponent of a frame's first pass.
ghost use Rattle.std.specs.Prelude.{◌≡◌, ◌<◌, ◌≤◌, pos};
ghost use Rattle.frame.specs.Estimate.{difference, exponent_of, halvings, first_exponent};
ghost use Rattle.frame.specs.inner.Ends.{difference_at, ends_of, up_first};
ghost use Rattle.frame.specs.inner.Places.{history_of, samples_of};

use crate::exponent::Exponent;
use crate::pair::Pair;
use crate::places::Frame;
use std::cmp::Ordering;

// The highest and the lowest difference, 0 among them.
#[derive(Clone, Copy)]
pub(crate) struct Ends {
    pub high: i16,
    pub low: i16,
}

// How far a sample is from its prediction, in 32 bits.
fn difference(pair: Pair, previous: i16, before: i16, sample: i16) -> i16
    ensures { result ≡ difference pair.c0 pair.c1 previous before sample }
{
    let predicted = whole::quotient_2048(pair.weigh(previous, before));
    whole::clamp_i16(i64::from(i32::from(sample) - predicted))
}

// The difference of the frame's sample i.
// Stays: pair and frame are two arguments, here and in other modules: their facts are in the types, and a struct of both would make
// each clause longer.
fn difference_at(pair: Pair, frame: &Frame, i: usize) -> i16
    requires { i < 14 }
    ensures { result ≡ difference_at pair.c0 pair.c1 frame.now.samples i }
{
    difference(
        pair,
        frame.samples[i + 1],
        frame.samples[i],
        frame.samples[i + 2],
    )
}

// The ends of the fourteen differences, two places a turn: 0 to 7 beside 6 to 13, so that 6 and 7 are looked at twice.
fn ends_of(pair: Pair, frame: &Frame) -> Ends
    ensures { result ≡ ends_of pair.c0 pair.c1 frame.now.samples }
{
    let mut high: i16 = 0;
    let mut low: i16 = 0;
    // Stays: two places a turn, so that the compiler makes vectors of it (docs/PROVING.md, "Fast forms").
    for i in 0..8 {
        let d = difference_at(pair, frame, i);
        let e = difference_at(pair, frame, i + 6);
        high = high.max(d).max(e);
        low = low.min(d).min(e);
    }
    Ends { high, low }
}

// The exponent of a largest difference m, not negative.
fn exponent(m: u32) -> Exponent
    requires { m ≤ 32768 }
    ensures { result.value ≡ exponent_of (halvings (pos m)) }
{
    Exponent {
        value: (28 - (m | 15).leading_zeros()) as u8,
    }
}

// Whether the first difference of magnitude n is not negative.
fn is_first(pair: Pair, frame: &Frame, n: u16) -> bool
    ensures { result ≡ up_first pair.c0 pair.c1 frame.now.samples n 14 0 }
{
    // Stays: the place is an argument of `difference_at`, so a chain would go over the numbers too.
    for i in 0..14 {
        let d = difference_at(pair, frame, i);
        if d.unsigned_abs() == n {
            return 0 <= d;
        }
    }
    true
}

// The exponent of the first pass: a negative largest difference -m has that of 8 m / 9.
pub(crate) fn first_exponent(pair: Pair, frame: &Frame) -> Exponent
    ensures { result.value ≡ first_exponent pair.c0 pair.c1 (history_of frame.now.samples) (samples_of frame.now.samples) }
{
    let ends = ends_of(pair, frame);
    let high = ends.high.unsigned_abs();
    let low = ends.low.unsigned_abs();
    let up = exponent(u32::from(high));
    let down = exponent(8 * u32::from(low) / 9);
    if up.value == down.value {
        return up;
    }
    match high.cmp(&low) {
        Ordering::Less => down,
        Ordering::Greater => up,
        Ordering::Equal => {
            let highest_first = is_first(pair, frame, high);
            if highest_first { up } else { down }
        }
    }
}
