// Measuring samples and asking for coefficients.
#![tactic(auto)]

ghost use Rattle.std.specs.Prelude.{◌≡◌};
ghost use Rattle.whole.specs.Outcome.{effect, or_kept};
ghost use Rattle.coefficients.specs.Measure as Measure;

mod clusters;
mod contrasts;
mod finishing;
mod framing;
mod measuring;
mod merging;
mod ranges;
mod store;
mod sums;

use store::Records;
use whole::Reason;

// Why a call is refused.
#[derive(Clone, Copy, Debug, PartialEq, Eq)]
pub enum Refusal {
    InvalidState,
    TooManySamples,
    StoreTooShort,
}

impl Reason for Refusal {
    ghost number = { Measure.code };

    ghost named = { λ r. 0 };

    // Document 01's number of a refusal.
    fn code(self) -> u32 {
        match self {
            Refusal::InvalidState => 1,
            Refusal::TooManySamples => 2,
            Refusal::StoreTooShort => 3,
        }
    }

    fn bad_block(self) -> u32 {
        0
    }
}

// The measuring state: samples so far, records, and the last samples. The records lie in a store that the caller lends.
#[repr(C)]
#[derive(Clone, Copy)]
pub struct CoefficientCalculator {
    pub samples: u32,
    pub records: u32,
    pub history: [i16; 28],
}

impl CoefficientCalculator {
    // A fresh state.
    #[tactic(auto, unfolding(crate::specs::Measure::fresh))]
    pub fn new() -> CoefficientCalculator
        ensures { result ≡ Measure.fresh }
    {
        CoefficientCalculator {
            samples: 0,
            records: 0,
            history: [0i16; 28],
        }
    }

    // Measures a piece: the record of each frame that it fills goes to the store.
    pub fn process(
        self,
        samples: &[i16],
        records: &mut [f64],
    ) -> Result<CoefficientCalculator, Refusal>
        ensures { effect (Measure.outcome result) (Measure.measuring (or_kept result self) records.new)
            ≡ Measure.process self samples.now records.old }
    {
        self.tested(samples.len(), records.len())?;
        Ok(self.push_all(samples, records))
    }

    // Works out the coefficients of all that was measured, the frame that is not full filled with zeros.
    pub fn finish(self, records: &mut [f64]) -> Result<[i16; 16], Refusal>
        ensures { Measure.finish_effect (Measure.outcome result) (or_kept result Measure.no_coefficients) self records.new
            ≡ Measure.finish self records.old }
    {
        self.tested(0, records.len())?;
        let count = self.padded_record(records);
        Ok(finishing::record_coefficients(&Records::new(records, count)))
    }
}
