// Replays a list of the Rust's answers on blocks. A line of the input is numbers in hexadecimal digits of lower case, here with their first
// digit's place: 0 what to do (0 play, 1 join, 2 addresses), 2 and 4 how many bytes the two blocks have, 6 the output's length (two digits
// each), 8 and 16 the lengths in nibbles (eight each, the first also the address), 24 the context's header and its two samples, 36 and 100
// the two blocks' coefficients (four each), 164 and 260 their bytes. The output has 5A in each byte at first. A line of the answers: 00
// or the refusal's number, the count or the lengths' sum, the context after playing, the output; or the two addresses' values.
#![tactic(auto)]

ghost use Rattle.std.specs.Prelude.{◌+◌, ◌≤◌};

use block::{FrameContext, Playback};
use replay::{Digits, HistoryDigits, Number, Replay, numbers, replay_lines, told};
use std::io::{self, Write};
use whole::History;

// What a line asks for.
enum Task {
    Play,
    Join,
    Addresses,
}

impl From<u8> for Task {
    fn from(number: u8) -> Task {
        match number {
            0 => Task::Play,
            1 => Task::Join,
            _ => Task::Addresses,
        }
    }
}

// The number of two digits, or the most that it may be.
fn size(line: &[u8; 357], at: usize, most: usize) -> usize
    requires { at + 2 ≤ 357 }
    ensures { result ≤ most }
{
    usize::from(u8::read(line, at)).min(most)
}

// Writes zero or the refusal's number, and the value.
fn write_answer(writer: &mut impl Write, code: u32, value: u64) -> io::Result<()> {
    write!(writer, "{code:02x} {value:09x} ")
}

// Plays a block and writes what it leaves.
fn play(writer: &mut impl Write, line: &[u8; 357]) -> io::Result<()> {
    let bytes: [u8; 48] = numbers(line, 164);
    let given = FrameContext {
        predictor_and_scale: u16::read(line, 24),
        last_samples: History::read(line, 28),
    };
    let mut samples = [0x5a5a_i16; 96];
    let out = &mut samples[..size(line, 6, 96)];
    let played = block::play_bytes(
        &bytes[..size(line, 2, 48)],
        u32::read(line, 8),
        numbers(line, 36),
        given,
        out,
    );
    let (code, _) = told(&played);
    let Playback { samples, context } = played.unwrap_or(Playback {
        samples: 0,
        context: given,
    });
    write_answer(writer, code, samples)?;
    // Stays: header and samples in two, since the lists differ in spaces and crate replay does not know a FrameContext.
    write!(writer, "{:04x}", context.predictor_and_scale)?;
    write!(
        writer,
        "{} {}",
        HistoryDigits(context.last_samples),
        Digits(out)
    )
}

// Joins two blocks and writes what it leaves.
fn join(writer: &mut impl Write, line: &[u8; 357]) -> io::Result<()> {
    let first: [u8; 48] = numbers(line, 164);
    let second: [u8; 48] = numbers(line, 260);
    let mut bytes = [0x5a_u8; 96];
    let out = &mut bytes[..size(line, 6, 96)];
    let joined = block::extend_samples(
        &first[..size(line, 2, 48)],
        u32::read(line, 8),
        numbers(line, 36),
        &second[..size(line, 4, 48)],
        u32::read(line, 16),
        numbers(line, 100),
        out,
    );
    let (code, _) = told(&joined);
    write_answer(writer, code, joined.unwrap_or(0))?;
    write!(writer, "{}", Digits(out))
}

// Replays a line of addresses.
fn addresses(writer: &mut impl Write, line: &[u8; 357]) -> io::Result<()> {
    let x = u32::read(line, 8);
    write_answer(writer, 0, block::address_to_sample(x))?;
    write!(writer, "{:09x}", block::sample_to_address(x))
}

// The list of calls.
#[derive(Drop)]
struct Calls;

impl Replay<357> for Calls {
    fn replay(&mut self, writer: &mut impl Write, line: &[u8; 357]) -> io::Result<()> {
        match Task::from(u8::read(line, 0)) {
            Task::Play => play(writer, line)?,
            Task::Join => join(writer, line)?,
            Task::Addresses => addresses(writer, line)?,
        }
        writeln!(writer)
    }
}

// Replays every line of the input.
fn main(rt: HostRuntime) -> io::Result<()> {
    replay_lines(&rt, &mut Calls, 1_000_000)
}
