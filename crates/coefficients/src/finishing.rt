// The sixteen coefficients of a list of records.
ghost use Rattle.std.specs.Prelude.{◌≡◌};
ghost use Rattle.coefficients.specs.Finish as Finish;

use crate::merging::Vec3;
use crate::store::Records;
use std::num::saturating_f64_to_i16;

// A vector's number as a coefficient.
#[tactic(auto, unfolding(crate::specs::Finish::coefficient))]
fn coefficient(v: f64) -> i16
    ensures { result ≡ Finish.coefficient v }
{
    let d = -v * 2048.0;
    if d > 0.0 {
        saturating_f64_to_i16(float::round(float::min(d, 32767.0)))
    } else {
        saturating_f64_to_i16(float::round(float::max(d, -32768.0)))
    }
}

// The eight pairs.
#[tactic(auto, unfolding(crate::specs::Finish::pairs))]
fn pairs(vs: &[Vec3; 8]) -> [i16; 16]
    ensures { result ≡ Finish.pairs vs.now 8 }
{
    let mut cs = [0i16; 16];
    // Stays: by place, since with chunks_exact_mut(2) zipped with the vectors the proof did not close.
    for k in 0..8 {
        cs[2 * k] = coefficient(vs[k].x1);
        cs[2 * k + 1] = coefficient(vs[k].x2);
    }
    cs
}

// The coefficients of some records: zeros where there is none.
#[tactic(auto, unfolding(crate::specs::Finish::record_coefficients))]
pub(crate) fn record_coefficients(records: &Records) -> [i16; 16]
    ensures { result ≡ Finish.record_coefficients records.now }
{
    if records.len() == 0 {
        return [0i16; 16];
    }
    pairs(&crate::clusters::vectors(records))
}
