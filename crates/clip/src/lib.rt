// The clip image: starting, feeding, closing.
#![tactic(auto)]

ghost use Rattle.std.specs.Prelude.{◌≡◌};
ghost use Rattle.whole.specs.Outcome.{effect, without_values, or_kept};
ghost use Rattle.clip.specs.Encoding.{code, outcome, left, no_encoder, start, feed, close};

mod checks;
mod closing;
pub mod contents;
mod feeding;
pub mod starting;

use block::FrameContext;
use checks::{close_answer, feed_answer, start_answer};
use closing::finish;
use contents::put_fresh;
use feeding::feed_all;
use layout::Loop;
use starting::Start;
use whole::{History, Reason};

// Why a call is refused.
#[derive(Clone, Copy, Debug, PartialEq, Eq)]
pub enum Refusal {
    InvalidState,
    BadSampleCount,
    RateZero,
    BadBlockSize,
    CoefficientOutside,
    LoopOutside,
    ImageTooShort,
    AlreadyClosed,
    PieceTooLong,
    Unfinished,
}

// The encoding state: what the clip was started with, the samples fed so far, the history, the unfinished frame, the passes made, the loop, and the context at its start once that is known. The default is of no clip: all zeros, which every call refuses.
// Stays: closed as a flag, and the frame filled as fed says, since C has this struct (doilycairn_encoder).
#[repr(C)]
#[derive(Clone, Copy, Default, PartialEq, Eq)]
pub struct Encoder {
    pub total: u32,
    pub rate: u32,
    pub block: u32,
    pub gain: u16,
    pub coefficients: [i16; 16],
    pub fed: u32,
    pub history: History,
    pub frame: [i16; 14],
    pub passes: u32,
    pub closed: bool,
    pub looped: Loop,
    pub context: FrameContext,
}

impl Reason for Refusal {
    ghost number = { code };

    ghost named = { λ _. 0 };

    // The number of a refusal in documents 01 and 02.
    fn code(self) -> u32 {
        match self {
            Refusal::InvalidState => 1,
            Refusal::BadSampleCount => 4,
            Refusal::RateZero => 5,
            Refusal::BadBlockSize => 6,
            Refusal::CoefficientOutside => 7,
            Refusal::LoopOutside => 23,
            Refusal::ImageTooShort => 8,
            Refusal::AlreadyClosed => 9,
            Refusal::PieceTooLong => 10,
            Refusal::Unfinished => 11,
        }
    }

    // No call on a clip names a block.
    fn bad_block(self) -> u32 {
        0
    }
}

// Starts a clip: its state, and all the bytes of its image.
pub fn start(g: Start, image: &mut [u8]) -> Result<Encoder, Refusal>
    ensures { effect (without_values (outcome result)) (left (or_kept result no_encoder) image.new) ≡ start g image.old }
{
    start_answer(g, image.len())?;
    let given = g.cut();
    put_fresh(image, given);
    Ok(given.begun())
}

// Feeds a piece: each frame that it fills is encoded to its place.
pub fn feed(e: Encoder, piece: &[i16], image: &mut [u8]) -> Result<Encoder, Refusal>
    ensures { effect (without_values (outcome result)) (left (or_kept result e) image.new) ≡ feed e piece.now image.old }
{
    feed_answer(e, piece.len(), image.len())?;
    Ok(feed_all(e, piece, image))
}

// Closes the clip: encodes a short last frame, writes the entry that a loop adds, and the mark.
pub fn close(e: Encoder, image: &mut [u8]) -> Result<Encoder, Refusal>
    ensures { effect (without_values (outcome result)) (left (or_kept result e) image.new) ≡ close e image.old }
{
    close_answer(e, image.len())?;
    Ok(finish(e, image))
}
