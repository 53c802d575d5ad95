// The choice among the eight pairs of coefficients, one after the other.
ghost use Rattle.std.specs.Prelude.{◌≡◌, ◌+◌, ◌<◌, ◌≤◌};
ghost use Rattle.frame.specs.Choice.{candidate_at, held_after};
ghost use Rattle.frame.specs.inner.Places.{history_of, samples_of};

use crate::bank::Bank;
use crate::places::Frame;
use crate::search::{Coded, try_coefficients};
use whole::History;

// What is held: the best candidate so far, its index, and the passes of all that were tried.
#[derive(Clone, Copy)]
pub(crate) struct Held {
    pub candidate: Coded,
    pub index: u8,
    pub passes: u32,
}

// The candidate of pair k.
fn candidate_at(frame: &Frame, bank: &Bank, k: usize) -> Coded
    requires { k < 8 }
    ensures { result ≡ candidate_at (history_of frame.now.samples) (samples_of frame.now.samples) bank.now.coefficients k }
{
    try_coefficients(bank.pair(k), frame)
}

// What is held after the first candidate.
fn after_the_first(frame: &Frame, bank: &Bank) -> Held
    ensures { result ≡ held_after (history_of frame.now.samples) (samples_of frame.now.samples) bank.now.coefficients 1 }
{
    let tried = candidate_at(frame, bank, 0);
    Held {
        candidate: tried,
        index: 0,
        passes: tried.passes,
    }
}

// What is held after k candidates and one more: the least distance, the lowest index among equals.
fn after_one_more(held: Held, frame: &Frame, bank: &Bank, k: usize) -> Held
    requires le_k { (1 ≤ k) × (k < 8) }
    requires held_value { held ≡ held_after (history_of frame.now.samples) (samples_of frame.now.samples) bank.now.coefficients k }
    ensures { result ≡ held_after (history_of frame.now.samples) (samples_of frame.now.samples) bank.now.coefficients (k + 1) }
{
    let tried = candidate_at(frame, bank, k);
    let passes = held.passes + tried.passes;
    if tried.distance < held.candidate.distance {
        return Held {
            candidate: tried,
            index: k as u8,
            passes,
        };
    }
    Held { passes, ..held }
}

// What is held after all eight.
pub(crate) fn choose(history: History, samples: [i16; 14], bank: &Bank) -> Held
    ensures { result ≡ held_after history samples bank.now.coefficients 8 }
{
    let frame = Frame::new(history, samples);
    let mut held = after_the_first(&frame, bank);
    for k in 1..8 {
        held = after_one_more(held, &frame, bank, k);
    }
    held
}
