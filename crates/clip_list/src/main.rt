// Replays a list of calls on clips of which the Rust's answers are known. A line of the input is a letter and numbers in hexadecimal digits
// of lower case, here with their first digit's place: 1 the length of the image buffer that the call is playing (four digits), 5 whether the
// answer has the buffer's bytes, 7 how many samples there are, whether the clip is closed, or whether there is a loop (two each); at 9 the
// samples, or 9 N, 17 rate, 25 block size (eight each), 33 gain, 37 coefficients, 101 the newest and the older history sample (four each),
// 109 n, 117 passes (eight each), 125 the unfinished frame; or 9 a loop's start, 17 its end (eight each), 25 header, 29 newest and older
// history sample of the context at its start (four each). n fills the buffer, byte i with i modulo 251; p puts a state with no loop; l puts a
// loop into the state; s starts a clip, with the state's loop where 7 says so; b adds the samples to the piece that is to come; f does the
// same and feeds that piece; c closes. s, f and c are answered by a line: 00 or the refusal's number, the state's fields from N on, closed,
// the loop and its context where one of their numbers is not zero, the digest of the lent buffer, and its bytes where the line asks for them.
#![tactic(auto)]

mod record;
mod text;

use clip::Encoder;
use record::{context_of, encoder_of, loop_of, start_of};
use replay::{Number, Piece, Replay, buffers, replay_lines, told};
use std::io::{self, Write};
use text::write_line;

// A call on the clip.
enum Call {
    Start,
    Feed,
    Close,
}

// What a line asks for.
enum Step {
    Fill,
    PutState,
    PutLoop,
    Add,
    Make(Call),
}

impl From<u8> for Step {
    fn from(letter: u8) -> Step {
        match letter {
            b'n' => Step::Fill,
            b'p' => Step::PutState,
            b'l' => Step::PutLoop,
            b's' => Step::Make(Call::Start),
            b'f' => Step::Make(Call::Feed),
            b'c' => Step::Make(Call::Close),
            _ => Step::Add,
        }
    }
}

// The encoding state, the samples of the piece that is to come, and the image buffer.
#[derive(Drop)]
struct State {
    encoder: Encoder,
    piece: Piece<2048>,
    image: [u8; 4096],
}

impl State {
    // Adds the samples of a line to the piece.
    fn add(&mut self, line: &[u8; 182]) {
        let count = usize::from(u8::read(line, 7)).min(43);
        self.piece.add_read(line, 9, count);
    }

    // Makes a call on the first bytes of the buffer and writes what it answers and leaves; the next piece is empty.
    fn make(&mut self, call: Call, writer: &mut impl Write, line: &[u8; 182]) -> io::Result<()> {
        let all = &mut self.image[..];
        let image = &mut all[..usize::from(u16::read(line, 1)).min(4096)];
        let given = self.encoder;
        let (done, kept) = match call {
            Call::Start => (
                clip::start(start_of(line, given.looped), image),
                Encoder::default(),
            ),
            Call::Feed => (clip::feed(given, self.piece.as_slice(), image), given),
            Call::Close => (clip::close(given, image), given),
        };
        let (code, _) = told(&done);
        self.encoder = done.unwrap_or(kept);
        self.piece.clear();
        write_line(writer, code, &self.encoder, image, u8::read(line, 5) != 0)
    }
}

impl Replay<182> for State {
    fn replay(&mut self, writer: &mut impl Write, line: &[u8; 182]) -> io::Result<()> {
        match Step::from(line[0]) {
            Step::Fill => buffers::fill(&mut self.image),
            Step::PutState => self.encoder = encoder_of(line),
            Step::PutLoop => {
                self.encoder.looped = loop_of(line);
                self.encoder.context = context_of(line);
            }
            Step::Add => self.add(line),
            Step::Make(Call::Feed) => {
                self.add(line);
                self.make(Call::Feed, writer, line)?;
            }
            Step::Make(call) => self.make(call, writer, line)?,
        }
        Ok(())
    }
}

// Replays every line of the list.
fn main(rt: HostRuntime) -> io::Result<()> {
    let mut state = State {
        encoder: Encoder::default(),
        piece: Piece::new(),
        image: [0; 4096],
    };
    replay_lines(&rt, &mut state, 4_000_000_000)
}
