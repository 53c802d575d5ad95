// Measuring samples and asking for coefficients (section 1).
ghost use Rattle.std.specs.Prelude.{◌≡◌};
ghost use Rattle.coefficients.specs.Measure.{fresh, process, finish};
ghost use Rattle.doilycairn.specs.Measuring.{process_seen, finish_seen};
ghost use Rattle.whole.specs.Outcome.{effect};

use crate::answers::code_of;
use coefficients::CoefficientCalculator;

// What measuring a piece returns.
// Stays: a code beside values, here and below, since C takes no Result (include/doilycairn.h, "Answers").
#[repr(C)]
#[derive(Drop)]
pub struct Processed {
    pub code: u32,
    pub calculator: CoefficientCalculator,
}

// What asking for coefficients returns.
#[repr(C)]
#[derive(Drop)]
pub struct Finished {
    pub code: u32,
    pub coefficients: [i16; 16],
    pub calculator: CoefficientCalculator,
}

// A fresh state.
#[unsafe(no_mangle)]
pub extern "C" fn doilycairn_new() -> CoefficientCalculator
    ensures { result ≡ fresh }
{
    CoefficientCalculator::new()
}

// Measures a piece.
#[unsafe(no_mangle)]
pub extern "C" fn doilycairn_process(
    calculator: CoefficientCalculator,
    samples: &[i16],
    records: &mut [f64],
) -> Processed
    ensures { effect result records.new ≡ process_seen (process calculator samples.now records.old) }
{
    let answer = calculator.process(samples, records);
    Processed {
        code: code_of(&answer),
        calculator: answer.unwrap_or(calculator),
    }
}

// Works out the coefficients of all that was measured.
#[unsafe(no_mangle)]
pub extern "C" fn doilycairn_finish(
    calculator: CoefficientCalculator,
    records: &mut [f64],
) -> Finished
    ensures { effect result records.new ≡ finish_seen (finish calculator records.old) }
{
    let answer = calculator.finish(records);
    Finished {
        code: code_of(&answer),
        coefficients: answer.unwrap_or([0; 16]),
        calculator,
    }
}
