// The line of an answer.
use block::FrameContext;
use clip::Encoder;
use layout::Loop;
use replay::buffers::digest;
use replay::glyph;
use std::io::{self, Write};
use whole::History;

// How many characters are gathered at the most.
const MOST: usize = 512;

// Characters on their way to the output. Those for which there is no room take the place of the last ones.
// Stays: gathered by hand, since by write! and Digits a closing takes more than twice as long.
#[derive(Drop)]
struct Text {
    characters: [u8; MOST],
    used: usize,
}

impl Text {
    // No characters.
    fn new() -> Text {
        Text {
            characters: [b' '; MOST],
            used: 0,
        }
    }

    // Puts a number's last digits, sixteen at the most.
    fn put(&mut self, value: u64, digits: usize) {
        let start = self.used.min(MOST - 16);
        let all = &mut self.characters[start..];
        let mut rest = value;
        for place in all[..digits.min(16)].iter_mut().rev() {
            *place = glyph((rest % 16) as u8);
            rest /= 16;
        }
        self.used = start + digits.min(16);
    }

    // Puts one character.
    fn put_character(&mut self, c: u8) {
        let place = self.used.min(MOST - 1);
        self.characters[place] = c;
        self.used = place + 1;
    }

    // Puts a number and a space.
    fn put_field(&mut self, value: u64, digits: usize) {
        self.put(value, digits);
        self.put_character(b' ');
    }

    // Puts samples and a space.
    fn put_samples(&mut self, samples: &[i16]) {
        for sample in samples {
            self.put(u64::from(sample.cast_unsigned()), 4);
        }
        self.put_character(b' ');
    }

    // Puts a loop and the context at its start.
    fn put_loop(&mut self, looped: Loop, context: FrameContext) {
        let History { newest, older } = context.last_samples;
        self.put_field(u64::from(looped.start), 8);
        self.put_field(u64::from(looped.end), 8);
        self.put_field(u64::from(looped.present), 2);
        self.put_field(u64::from(context.predictor_and_scale), 4);
        self.put_samples(&[newest, older]);
    }

    // Puts a state, with its loop and context where one of their numbers is not zero.
    fn put_encoder(&mut self, e: &Encoder) {
        self.put_field(u64::from(e.total), 8);
        self.put_field(u64::from(e.rate), 8);
        self.put_field(u64::from(e.block), 8);
        self.put_field(u64::from(e.gain), 4);
        self.put_samples(&e.coefficients);
        self.put_samples(&[e.history.newest, e.history.older]);
        self.put_field(u64::from(e.fed), 8);
        self.put_field(u64::from(e.passes), 8);
        self.put_samples(&e.frame);
        self.put_field(u64::from(e.closed), 2);
        if e.looped != Loop::default() || e.context != FrameContext::default() {
            self.put_loop(e.looped, e.context);
        }
    }

    // Writes them all, after which there are none.
    fn write(&mut self, writer: &mut impl Write) -> io::Result<()> {
        let used = self.used.min(MOST);
        self.used = 0;
        writer.write_all(&self.characters[..used])
    }
}

// Writes the line of an answer, with the buffer's bytes where they are asked for.
pub(crate) fn write_line(
    writer: &mut impl Write,
    code: u32,
    e: &Encoder,
    image: &[u8],
    shown: bool,
) -> io::Result<()> {
    let mut text = Text::new();
    text.put_field(u64::from(code), 2);
    text.put_encoder(e);
    text.put(digest(image), 10);
    if shown {
        text.put_character(b' ');
        text.write(writer)?;
        for part in image.chunks(MOST / 2 - 8) {
            for byte in part {
                text.put(u64::from(*byte), 2);
            }
            text.write(writer)?;
        }
    }
    text.put_character(b'\n');
    text.write(writer)
}
