// The frame encoder: fourteen samples to eight bytes (section 3 of document 01).
#![tactic(auto)]

ghost use Rattle.std.specs.Prelude.{◌≡◌, ◌≤◌, nat_abs};
ghost use Rattle.frame.specs.Choice.{AllBounded};
ghost use Rattle.frame.specs.Frame.{code, coefficients_ok, encode_frame, encode_one_frame, frame_effect, history_after, pair_ok};

mod bank;
mod choice;
mod estimate;
mod exponent;
mod nibbles;
mod pair;
mod pass;
mod places;
mod quantise;
mod quick;
mod room;
mod search;
mod seen;

use bank::Bank;
use choice::{Held, choose};
use nibbles::pack_frame;
use pair::magnitudes;
use whole::{History, Reason};

// A frame's eight bytes, the passes over all eight candidates, and the samples that the bytes play.
#[derive(Clone, Copy)]
pub struct EncodedFrame {
    pub bytes: [u8; 8],
    pub passes: u32,
    pub samples: [i16; 14],
}

// Why a frame is refused.
#[derive(Clone, Copy, Debug, PartialEq, Eq)]
pub enum Refusal {
    CoefficientOutside,
}

// Document 01's number of a refusal.
impl Reason for Refusal {
    ghost number = { code };

    ghost named = { λ r. 0 };

    fn code(self) -> u32 {
        match self {
            Refusal::CoefficientOutside => 7,
        }
    }

    fn bad_block(self) -> u32 {
        0
    }
}

// A frame's eight bytes, the passes over all eight candidates, and the history after it.
#[derive(Clone, Copy)]
pub struct OneFrame {
    pub bytes: [u8; 8],
    pub passes: u32,
    pub history: History,
}

// Whether the magnitudes of c0 and c1 add up to 61440 at most.
// Stays: a line over `magnitudes`, as `is_roomy` is; the edits sum_above_by_one and limit_below_by_one turn its limit here.
fn pair_ok(c0: i16, c1: i16) -> bool
    ensures { result ≡ pair_ok c0 c1 }
{
    magnitudes(c0, c1) <= 61440
}

// Whether every pair is within the limit of code 7.
pub fn coefficients_ok(coefficients: [i16; 16]) -> bool
    ensures { result ≡ coefficients_ok coefficients }
{
    for pair in coefficients.chunks_exact(2) {
        if !pair_ok(pair[0], pair[1]) {
            return false;
        }
    }
    true
}

// The frame of fourteen samples after `history`, padding zeros among them. It is internal: crate clip calls it.
pub fn encode_frame(history: History, samples: [i16; 14], coefficients: [i16; 16]) -> EncodedFrame
    requires { AllBounded coefficients }
    ensures { result ≡ encode_frame history samples coefficients }
{
    let Held {
        candidate,
        index,
        passes,
    } = choose(history, samples, &Bank { coefficients });
    let samples = candidate.samples;
    let bytes = pack_frame(index * 16 + candidate.exponent, candidate.nibbles);
    EncodedFrame {
        bytes,
        passes,
        samples,
    }
}

// The history after the first m reconstructed samples of a frame. It is internal: crate clip calls it.
// Stays: m beside the samples, since docs/DECISIONS.md names the function and its m = 0.
pub fn history_after(history: History, samples: [i16; 14], m: usize) -> History
    requires { m ≤ 14 }
    ensures { result ≡ history_after history samples m }
{
    match m {
        0 => history,
        1 => History {
            newest: samples[0],
            older: history.newest,
        },
        _ => History {
            newest: samples[m - 1],
            older: samples[m - 2],
        },
    }
}

// Encodes one frame, or refuses its coefficients.
pub fn encode_one_frame(
    history: History,
    samples: [i16; 14],
    coefficients: [i16; 16],
) -> Result<OneFrame, Refusal>
    ensures { frame_effect history result ≡ encode_one_frame history samples coefficients }
{
    if !coefficients_ok(coefficients) {
        return Err(Refusal::CoefficientOutside);
    }
    let EncodedFrame {
        bytes,
        passes,
        samples: kept,
    } = encode_frame(history, samples, coefficients);
    Ok(OneFrame {
        bytes,
        passes,
        history: history_after(history, kept, 14),
    })
}
