// Replays a list of calls on two images of which the answers are known. A line of the input is a letter and numbers in hexadecimal digits of
// lower case, here with their first digit's place. b, f and g put bytes into both images, the first or the second: 1 the bytes' place
// (four digits), 5 how many (two), 7 the bytes. The others are calls: 1 and 5 the lengths of the two images that are playing (four each), 9 the
// block's number, that of the first sample or the loop's turns (eight), 17 the output's length (four). o opens the first image, k finds the
// body of a block of it, p plays that block, a plays all blocks, m plays from a sample on, t plays the loop, s compares the first with the
// second, r the second with the first, h and v do so by the sound alone. A call is answered by a line: 00 or the refusal's number; the block
// whose entry is bad, or 0; then the head's values and, where there is a loop, its start, end and context, the body, the count, the context or
// the number of blocks touched, and the whole output, which has 5A in each byte at first, or 1 where the images are, or sound, the same.
#![tactic(auto)]

mod text;

use replay::{Number, Replay, buffers, replay_lines};
use std::io::{self, Write};
use text::{write_body, write_opening, write_part, write_played, write_same, write_turns};

// What is played of the first image.
enum Played {
    Block,
    All,
    From,
    Loop,
}

impl Played {
    // Plays it and writes what that answers and leaves.
    fn play(
        self,
        writer: &mut impl Write,
        image: &[u8],
        number: u32,
        out: &mut [i16],
    ) -> io::Result<()> {
        match self {
            Played::Block => write_played(writer, image::play(image, number, out), out),
            Played::All => write_played(writer, image::play_all(image, out), out),
            Played::From => write_part(writer, image::play_from(image, number, out), out),
            Played::Loop => write_turns(writer, image::play_loop(image, number, out), out),
        }
    }
}

// A call on the two images.
enum Call {
    Open,
    Body,
    Play(Played),
    Same,
    SameTurned,
    Sounds,
    SoundsTurned,
}

// What a line asks for: bytes in one image or both, or a call.
enum Step {
    PutBoth,
    PutFirst,
    PutSecond,
    Make(Call),
}

impl From<u8> for Step {
    fn from(letter: u8) -> Step {
        match letter {
            b'b' => Step::PutBoth,
            b'f' => Step::PutFirst,
            b'g' => Step::PutSecond,
            b'o' => Step::Make(Call::Open),
            b'k' => Step::Make(Call::Body),
            b'p' => Step::Make(Call::Play(Played::Block)),
            b'a' => Step::Make(Call::Play(Played::All)),
            b'm' => Step::Make(Call::Play(Played::From)),
            b't' => Step::Make(Call::Play(Played::Loop)),
            b's' => Step::Make(Call::Same),
            b'r' => Step::Make(Call::SameTurned),
            b'h' => Step::Make(Call::Sounds),
            _ => Step::Make(Call::SoundsTurned),
        }
    }
}

impl Call {
    // Makes the call and writes what it answers and leaves.
    fn make(
        self,
        writer: &mut impl Write,
        line: &[u8; 56],
        first: &[u8],
        second: &[u8],
    ) -> io::Result<()> {
        let number = u32::read(line, 9);
        match self {
            Call::Open => write_opening(writer, image::open(first)),
            Call::Body => {
                let answer = image::block_answer(first, number);
                write_body(writer, answer, image::block_body(first, number))
            }
            Call::Play(how) => {
                let mut samples = [0x5a5a_i16; 512];
                let out = &mut samples[..usize::from(u16::read(line, 17)).min(512)];
                how.play(writer, first, number, out)
            }
            Call::Same => write_same(writer, image::same(first, second)),
            Call::SameTurned => write_same(writer, image::same(second, first)),
            Call::Sounds => write_same(writer, image::sounds_same(first, second)),
            Call::SoundsTurned => write_same(writer, image::sounds_same(second, first)),
        }
    }
}

// The two images.
#[derive(Drop)]
struct Images {
    first: [u8; 1024],
    second: [u8; 1024],
}

impl Replay<56> for Images {
    // A call is made on the first bytes of the images.
    fn replay(&mut self, writer: &mut impl Write, line: &[u8; 56]) -> io::Result<()> {
        match Step::from(line[0]) {
            Step::PutBoth => {
                buffers::put::<24>(line, &mut self.first);
                buffers::put::<24>(line, &mut self.second);
            }
            Step::PutFirst => buffers::put::<24>(line, &mut self.first),
            Step::PutSecond => buffers::put::<24>(line, &mut self.second),
            Step::Make(call) => {
                let n = usize::from(u16::read(line, 1)).min(1024);
                let m = usize::from(u16::read(line, 5)).min(1024);
                call.make(writer, line, &self.first[..n], &self.second[..m])?;
                writeln!(writer)?;
            }
        }
        Ok(())
    }
}

// Replays every line of the list.
fn main(rt: HostRuntime) -> io::Result<()> {
    let mut images = Images {
        first: [0; 1024],
        second: [0; 1024],
    };
    replay_lines(&rt, &mut images, 4_000_000_000)
}
