// The steps of measuring, and the tests of its calls.
ghost use Rattle.std.specs.Prelude.{◌≡◌, ◌+◌, ◌*◌, ◌/◌, ◌%◌, ◌<◌, ◌≤◌, length};
ghost use mathlib.Core.List.{foldl};
ghost use Rattle.coefficients.specs.Measure as Measure;
ghost use Rattle.coefficients.specs.inner.KeptRecord.{KeptPadded};
ghost use Rattle.coefficients.specs.inner.Measurable.{Measurable};

use crate::framing::process_frame;
use crate::{CoefficientCalculator, Refusal};
use whole::{MOST_SAMPLES, SAMPLES_PER_FRAME};

// Numbers that the store must have for n samples.
#[tactic(auto, unfolding(whole::specs::Frames::frame_count))]
fn needed(n: usize) -> usize
    requires { n ≤ 14680064 }
    ensures { result ≡ Measure.needed n }
{
    2 * n.div_ceil(SAMPLES_PER_FRAME)
}

// Stays: Measurable is asked by three of these, since it counts the samples that are still to come, which no field holds.
impl CoefficientCalculator {
    // Whether the counts are those of some measured samples.
    #[tactic(auto, unfolding(crate::specs::Measure::valid))]
    fn is_valid(&self) -> bool
        ensures { result ≡ Measure.valid self.now.samples self.now.records }
    {
        self.samples <= MOST_SAMPLES && self.records <= self.samples / 14
    }

    // Whether a call with some samples more, none where coefficients are asked for, is refused on a store of some size.
    pub(crate) fn tested(&self, len: usize, size: usize) -> Result<(), Refusal>
        ensures { Measure.outcome result
            ≡ Measure.process_answer self.now.samples self.now.records len size }
    {
        if !self.is_valid() {
            return Err(Refusal::InvalidState);
        }
        let before = self.samples as usize;
        if len > MOST_SAMPLES as usize - before {
            return Err(Refusal::TooManySamples);
        }
        if size < needed(before + len) {
            return Err(Refusal::StoreTooShort);
        }
        Ok(())
    }

    // One sample: the record of a frame that it fills goes to the store, and the frame's samples to the front of the history.
    fn push(&mut self, x: i16, s: &mut [f64])
        requires { Measurable self.old.samples self.old.records 1 (length s.old) }
        ensures { Measure.measuring self.new s.new ≡ Measure.push (Measure.measuring self.old s.old) x }
    {
        let k = (self.samples % 14) as usize;
        self.history[SAMPLES_PER_FRAME + k] = x;
        self.samples += 1;
        if k == 13 {
            self.records = process_frame(&self.history, s, self.records as usize) as u32;
            self.history.copy_within(SAMPLES_PER_FRAME.., 0);
        }
    }

    // All samples of a piece for which there is room.
    pub(crate) fn push_all(self, samples: &[i16], s: &mut [f64]) -> CoefficientCalculator
        requires { Measurable self.samples self.records (length samples.now) (length s.old) }
        ensures { Measure.measuring result s.new
            ≡ foldl Measure.push (Measure.measuring self s.old) samples.now }
    {
        let mut next = self;
        for x in samples {
            next.push(*x, s);
        }
        next
    }

    // The record of the frame that is not full, zeros after its samples, if there is such a frame and it has one, goes to the store: the count of records with it.
    pub(crate) fn padded_record(self, s: &mut [f64]) -> usize
        requires { Measurable self.samples self.records 0 (length s.old) }
        ensures { KeptPadded self s.old result s.new }
    {
        let r = self.records as usize;
        let k = (self.samples % 14) as usize;
        if k == 0 {
            return r;
        }
        let mut h = self.history;
        h[SAMPLES_PER_FRAME + k..].fill(0);
        process_frame(&h, s, r)
    }
}
