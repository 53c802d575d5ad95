// The last frame and the mark.
ghost use Rattle.std.specs.Prelude.{◌≡◌, ◌≤◌, length};
ghost use Rattle.layout.specs.Limits.{Limits};
ghost use Rattle.layout.specs.Sizes.{image_size};
ghost use Rattle.clip.specs.Encoding.{left, encoder_shape, ended, finish};
ghost use Rattle.clip.specs.inner.Asked.{Whole};
ghost use Rattle.clip.specs.inner.Encoded.{last_encoded};

use crate::Encoder;
use crate::contents::{put_loop, put_mark};
use layout::sizes::{block_count, entry_place};
use whole::SAMPLES_PER_FRAME;

impl Encoder {
    // Encodes a short last frame, zeros for the samples that it lacks.
    fn encode_last(&mut self, image: &mut [u8])
        requires { Whole self.old (length image.old) }
        ensures { left self.new image.new ≡ last_encoded (left self.old image.old) }
    {
        let q = self.fed as usize / SAMPLES_PER_FRAME;
        let m = self.fed as usize % SAMPLES_PER_FRAME;
        if m != 0 {
            self.frame[m..].fill(0);
            self.encode(q, m, image);
        }
    }

    // What closing writes after the last frame: the entry that a loop adds, and the mark.
    fn put_end(self, image: &mut [u8])
        requires { Limits (encoder_shape self) × (image_size (encoder_shape self) ≤ length image.old) }
        ensures { image.new ≡ ended (encoder_shape self) self.looped self.context image.old }
    {
        put_loop(
            image,
            entry_place(block_count(self.shape())),
            self.looped,
            self.context,
        );
        put_mark(image);
    }
}

// Encodes a short last frame, and writes the entry that a loop adds and the mark.
pub(crate) fn finish(e: Encoder, image: &mut [u8]) -> Encoder
    requires { Whole e (length image.old) }
    ensures { left result image.new ≡ finish (left e image.old) }
{
    let mut last = e;
    last.encode_last(image);
    last.put_end(image);
    last.frame = [0; 14];
    last.closed = true;
    last
}
