// One pass over a frame at a given exponent.
ghost use Rattle.std.specs.Prelude.{◌≡◌, ◌≤◌};
ghost use Rattle.frame.specs.Pass.{code_sample, squared_difference, run_pass};
ghost use Rattle.frame.specs.Search.{finished};
ghost use Rattle.frame.specs.inner.Places.{history_of, samples_of};

use crate::exponent::Exponent;
use crate::pair::Pair;
use crate::places::Frame;
use crate::quantise::quantise;
use crate::search::Coded;

// One sample: its nibble, the reconstructed sample, and how far the nibble was out of range.
#[derive(Clone, Copy)]
pub(crate) struct Step {
    pub nibble: i8,
    pub sample: i16,
    pub overflow: u64,
}

// A whole pass: the largest overflow and the sum of squared differences.
// Stays: two arrays, here and in Coded, as `pack_frame` takes the nibbles alone and the history comes of the samples.
#[derive(Clone, Copy)]
pub(crate) struct Pass {
    pub nibbles: [i8; 14],
    pub samples: [i16; 14],
    pub overflow: u64,
    pub distance: u64,
}

impl Pass {
    // The candidate that this pass finishes.
    pub(crate) fn finished(self, exponent: Exponent, passes: u32) -> Coded
        ensures { result ≡ finished self exponent.value passes }
    {
        let Pass {
            nibbles,
            samples,
            distance,
            ..
        } = self;
        Coded {
            nibbles,
            samples,
            distance,
            exponent: exponent.value,
            passes,
        }
    }
}

// Sample x after the reconstructed samples s0 and s1.
fn code_sample(pair: Pair, s0: i16, s1: i16, x: i16, p: Exponent) -> Step
    ensures { result ≡ code_sample pair.c0 pair.c1 s0 s1 x p.value }
{
    let q = i64::from(pair.weigh(s0, s1));
    let u = quantise(2048 * i64::from(x) - q, p);
    let n = u.clamp(-8, 7);
    Step {
        nibble: n as i8,
        sample: whole::clamp_i16(((q + 1024) >> 11) + n * (1i64 << p.value)),
        overflow: u.abs_diff(n),
    }
}

// The squared difference.
pub(crate) fn squared_difference(x: i16, y: i16) -> u32
    ensures { result ≡ squared_difference x y }
{
    let d = (i32::from(x) - i32::from(y)).unsigned_abs();
    d * d
}

// A pass over the fourteen samples.
pub(crate) fn run_pass(pair: Pair, frame: &Frame, p: Exponent) -> Pass
    ensures { result ≡ run_pass pair.c0 pair.c1 (history_of frame.now.samples) (samples_of frame.now.samples) p.value }
{
    let mut nibbles = [0i8; 14];
    let mut samples = [0i16; 14];
    let mut overflow: u64 = 0;
    let mut distance: u64 = 0;
    let mut s0 = frame.samples[1];
    let mut s1 = frame.samples[0];
    // Stays: by place, since three arrays and more go by one; a chain of zips would be no plainer.
    for i in 0..14 {
        let x = frame.samples[i + 2];
        let step = code_sample(pair, s0, s1, x, p);
        nibbles[i] = step.nibble;
        samples[i] = step.sample;
        overflow = overflow.max(step.overflow);
        distance += u64::from(squared_difference(x, step.sample));
        s1 = s0;
        s0 = step.sample;
    }
    Pass {
        nibbles,
        samples,
        overflow,
        distance,
    }
}
