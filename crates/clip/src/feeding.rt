// Frames encoded to their places.
ghost use Rattle.std.specs.Prelude.{◌≡◌, length};
ghost use Rattle.clip.specs.Encoding.{left, store, loop_context, push, feed_all};
ghost use Rattle.clip.specs.inner.Asked.{Room, Framed, Going};
ghost use Rattle.clip.specs.inner.Encoded.{encoded};

use crate::Encoder;
use crate::contents::put_context;
use block::FrameContext;
use frame::{EncodedFrame, encode_frame, history_after};
use layout::Shape;
use layout::sizes::{bodies_place, entry_place};
use whole::{BYTES_PER_FRAME, History, SAMPLES_PER_FRAME};

// Stores a frame's bytes at its place, and its block's context where it is a block's first.
fn store(image: &mut [u8], shape: Shape, q: usize, bytes: &[u8], history: History)
    requires { Room shape q (length bytes.now) (length image.old) }
    ensures { image.new ≡ store shape q bytes.now history image.old }
{
    let at = bodies_place(shape) + BYTES_PER_FRAME * q;
    image[at..at + bytes.len()].copy_from_slice(bytes);
    let per = shape.block / BYTES_PER_FRAME;
    if q % per == 0 {
        let context = FrameContext {
            predictor_and_scale: u16::from(bytes[0]),
            last_samples: history,
        };
        put_context(image, entry_place(q / per) + 8, context);
    }
}

// Stays: what these ask of a state and its buffer is a record of specs/inner and no invariant, since the struct is C's, of any numbers, and C lends the buffer anew to each call.
impl Encoder {
    // The context at the loop start: that of frame q, which is encoded after the state's history, where it holds the start, else the one before.
    #[tactic(auto, unfolding(crate::specs::Encoding::loop_context))]
    fn loop_context(self, q: usize, done: EncodedFrame) -> FrameContext
        ensures { result ≡ loop_context self.looped q self.history done self.context }
    {
        let start = self.looped.start as usize;
        if self.looped.present && start / SAMPLES_PER_FRAME == q {
            let before = start % SAMPLES_PER_FRAME;
            FrameContext {
                predictor_and_scale: u16::from(done.bytes[0]),
                last_samples: history_after(self.history, done.samples, before),
            }
        } else {
            self.context
        }
    }

    // Encodes the first m samples of the unfinished frame, which is frame q, to its place, and begins another.
    pub(crate) fn encode(&mut self, q: usize, m: usize, image: &mut [u8])
        requires { Framed self.old q m (length image.old) }
        ensures { left self.new image.new ≡ encoded (left self.old image.old) q m }
    {
        let before = self.history;
        let done = encode_frame(before, self.frame, self.coefficients);
        let after = history_after(before, done.samples, m);
        let stored = &done.bytes[..1 + m.div_ceil(2)];
        store(image, self.shape(), q, stored, before);
        self.context = self.loop_context(q, done);
        self.history = after;
        self.frame = [0; 14];
        self.passes += done.passes;
    }

    // Takes a sample in: a frame that it fills is encoded to its place.
    fn push(&mut self, sample: i16, image: &mut [u8])
        requires { Going self.old 0 1 (length image.old) }
        ensures { left self.new image.new ≡ push (left self.old image.old) sample }
    {
        let q = self.fed as usize / SAMPLES_PER_FRAME;
        let at = self.fed as usize % SAMPLES_PER_FRAME;
        self.frame[at] = sample;
        self.fed += 1;
        let full = at + 1 == SAMPLES_PER_FRAME;
        if full {
            self.encode(q, SAMPLES_PER_FRAME, image);
        }
    }
}

// The samples of a piece in turn, each to its place in the unfinished frame.
pub(crate) fn feed_all(e: Encoder, piece: &[i16], image: &mut [u8]) -> Encoder
    requires { Going e 0 (length piece.now) (length image.old) }
    ensures { left result image.new ≡ feed_all (left e image.old) piece.now }
{
    let mut fed = e;
    for sample in piece {
        fed.push(*sample, image);
    }
    fed
}
