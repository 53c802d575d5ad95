// Replays a list of exports and imports of .dsp files of which the answers are known, on a source and an output. A line of the input is a
// letter and numbers in hexadecimal digits of lower case, here with their first digit's place. p puts bytes into the source: 1 their place
// (four digits), 5 how many (two), 7 the bytes. s makes the output the source and the source the output. The others are calls: 1 and 5 the
// lengths of source and output that are lent (four each), 9 the block size (eight), 17 whether the answer has the output's bytes (two). e
// exports the image in the source, i imports the file in it, r asks how much room that needs. Before a call byte i of the output is made i
// modulo 251. A call is answered by a line: 00 or the refusal's number; the block that it names, or 0; how many bytes; the digest of the
// lent output, and its bytes where the line asks for them.
#![tactic(auto)]

use dsp::Refusal;
use replay::{Digits, Number, Replay, buffers, replay_lines, told};
use std::io::{self, Write};

// A call on the source and the output.
enum Call {
    Export,
    Import,
    RoomFor,
}

// What a line asks for: bytes in the source, the buffers the other way round, or a call.
enum Step {
    Put,
    Swap,
    Make(Call),
}

impl From<u8> for Step {
    fn from(letter: u8) -> Step {
        match letter {
            b'p' => Step::Put,
            b's' => Step::Swap,
            b'e' => Step::Make(Call::Export),
            b'i' => Step::Make(Call::Import),
            _ => Step::Make(Call::RoomFor),
        }
    }
}

impl Call {
    // Makes the call.
    fn make(self, source: &[u8], size: u32, out: &mut [u8]) -> Result<u64, Refusal> {
        match self {
            Call::Export => dsp::export(source, out),
            Call::Import => dsp::import(source, size, out),
            Call::RoomFor => dsp::room_for(source, size),
        }
    }
}

// Writes what a call answers and leaves, with the output's bytes where they are asked for.
fn write_answer(
    writer: &mut impl Write,
    done: Result<u64, Refusal>,
    out: &[u8],
    shown: bool,
) -> io::Result<()> {
    let (code, block) = told(&done);
    let count = done.unwrap_or_default();
    let digest = buffers::digest(out);
    write!(writer, "{code:02x} {block:08x} {count:08x} {digest:010x}")?;
    if shown {
        write!(writer, " {}", Digits(out))?;
    }
    writeln!(writer)
}

// The source and the output, or the output and the source.
// Stays: a flag, since mem::swap moves both buffers, and a line that exchanges them takes four times as long.
#[derive(Drop)]
struct Buffers {
    first: [u8; 1024],
    second: [u8; 1024],
    swapped: bool,
}

impl Buffers {
    // The source and the output.
    fn lent(&mut self) -> (&mut [u8; 1024], &mut [u8; 1024]) {
        if self.swapped {
            (&mut self.second, &mut self.first)
        } else {
            (&mut self.first, &mut self.second)
        }
    }
}

impl Replay<32> for Buffers {
    // A call is made on the first bytes of the buffers.
    fn replay(&mut self, writer: &mut impl Write, line: &[u8; 32]) -> io::Result<()> {
        match Step::from(line[0]) {
            Step::Put => buffers::put::<12>(line, self.lent().0),
            Step::Swap => self.swapped = !self.swapped,
            Step::Make(call) => {
                let (source, out) = self.lent();
                let source = &source[..usize::from(u16::read(line, 1)).min(1024)];
                let all = &mut out[..];
                buffers::fill(all);
                let out = &mut all[..usize::from(u16::read(line, 5)).min(1024)];
                let done = call.make(source, u32::read(line, 9), out);
                write_answer(writer, done, out, u8::read(line, 17) != 0)?;
            }
        }
        Ok(())
    }
}

// Replays every line of the list.
fn main(rt: HostRuntime) -> io::Result<()> {
    let mut buffers = Buffers {
        first: [0; 1024],
        second: [0; 1024],
        swapped: false,
    };
    replay_lines(&rt, &mut buffers, 4_000_000_000)
}
