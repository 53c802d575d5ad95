// Replays a list of the Rust's encoded frames. A line of the input, in hexadecimal digits: the number of real samples (2), the
// newest and the older history sample (4 each), fourteen samples and sixteen coefficients (4 each, joined). A line of the output: the
// eight bytes, the passes (2), the newest and the older history sample after the real samples; or "refused" and document 01's number.
#![tactic(auto)]

ghost use Rattle.std.specs.Prelude.{◌≤◌};
ghost use Rattle.frame.specs.Choice.{AllBounded};

use replay::{Digits, Number, Replay, numbers, replay_lines};
use std::io::{self, Write};
use whole::{History, Reason};

// The history after m real samples: the one-frame call's where the frame is full.
// Stays: m beside the samples, since frame's history_after takes it so (docs/DECISIONS.md).
fn history_after(history: History, samples: [i16; 14], coefficients: [i16; 16], m: usize) -> History
    requires all_bounded { AllBounded coefficients }
    requires m_bound { m ≤ 14 }
{
    let encoded = frame::encode_frame(history, samples, coefficients);
    frame::history_after(history, encoded.samples, m)
}

// The list of frames.
#[derive(Drop)]
struct Frames;

impl Replay<135> for Frames {
    fn replay(&mut self, writer: &mut impl Write, line: &[u8; 135]) -> io::Result<()> {
        let real = usize::from(u8::read(line, 0)).min(14);
        // Stays: not History::read, and below not HistoryDigits, since this list has a space between the two samples.
        let history = History {
            newest: i16::read(line, 3),
            older: i16::read(line, 8),
        };
        let samples = numbers(line, 13);
        let coefficients = numbers(line, 70);
        let one = match frame::encode_one_frame(history, samples, coefficients) {
            Ok(one) => one,
            Err(why) => return writeln!(writer, "refused {}", why.code()),
        };
        let after = if real < 14 {
            history_after(history, samples, coefficients, real)
        } else {
            one.history
        };
        write!(writer, "{} {:02x}", Digits(&one.bytes), one.passes)?;
        writeln!(writer, " {:04x} {:04x}", after.newest, after.older)
    }
}

// Replays every line of the input.
fn main(rt: HostRuntime) -> io::Result<()> {
    replay_lines(&rt, &mut Frames, 1_000_000)
}
