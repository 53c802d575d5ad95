// The sound of two images compared, a frame at a time.
ghost use Rattle.std.specs.Prelude.{◌≡◌, ◌+◌, ◌*◌, ◌≤◌, ◌<◌, length};
ghost use Rattle.block.specs.Refusals.{equal_up_to};
ghost use Rattle.whole.specs.Frames.{frame_count};
ghost use Rattle.image.specs.inner.ByFrames.{frame_samples, context_before, played_frame, next_frame};
ghost use Rattle.image.specs.Reading.{total_in};
ghost use Rattle.image.specs.Sameness.{same_sound};

use crate::opened::Opened;
use block::{FrameContext, play_frame};
use layout::sizes::{frame_count, last_samples};
use whole::{BYTES_PER_FRAME, SAMPLES_PER_FRAME};

// A frame's samples, and the context after them.
#[derive(Drop)]
pub(crate) struct Frame {
    pub(crate) samples: [i16; 14],
    pub(crate) context: FrameContext,
}

// The samples in frame i of a clip of `total` samples.
fn frame_samples(total: usize, i: usize) -> usize
    requires { (1 ≤ total) × (total ≤ 14680064) × (i < frame_count total) }
    ensures same { result ≡ frame_samples total i }
    ensures most { result ≤ 14 }
{
    if i + 1 < frame_count(total) {
        SAMPLES_PER_FRAME
    } else {
        last_samples(total)
    }
}

// `count` samples of the frame at a byte.
// Stays: block's frame_context keeps the context alone; both are one call of play_frame to a frame's room.
fn played_frame(
    image: &[u8],
    at: usize,
    count: usize,
    coefficients: [i16; 16],
    context: FrameContext,
) -> Frame
    requires { (2 * at + 2 + count ≤ 2 * length image.now) × (count ≤ 14) }
    ensures { result ≡ played_frame image.now at count coefficients context }
{
    let mut samples = [0i16; 14];
    let context = play_frame(image, at, count, coefficients, context, &mut samples, 0);
    Frame { samples, context }
}

// Whether the first `count` samples are equal.
// Stays: a count beside two frames, since the last frame of a clip has fewer samples; the law of equal_up_to is found here once.
fn equal_part(xs: [i16; 14], ys: [i16; 14], count: usize) -> bool
    requires { count ≤ 14 }
    ensures { result ≡ equal_up_to xs ys count }
{
    xs[..count] == ys[..count]
}

impl<'a> Opened<'a> {
    // What frame i is played from: its block's entry's context, or what the frame before left, under its own header.
    fn context_before(&self, i: usize, before: FrameContext) -> FrameContext
        requires { i < frame_count (total_in self.now) }
        ensures { result ≡ context_before self.now i before }
    {
        let per = self.block() / BYTES_PER_FRAME;
        let begins = i % per == 0;
        if begins {
            return self.context(i / per);
        }
        let bodies = self.bodies();
        before.with_header(self.bytes()[bodies + BYTES_PER_FRAME * i])
    }

    // Frame i, after what the frame before left.
    fn next_frame(&self, i: usize, count: usize, before: FrameContext) -> Frame
        requires { (i < frame_count (total_in self.now)) × (count ≡ frame_samples (total_in self.now) i) }
        ensures { result ≡ next_frame self.now i before }
    {
        let context = self.context_before(i, before);
        let bodies = self.bodies();
        played_frame(
            self.bytes(),
            bodies + BYTES_PER_FRAME * i,
            count,
            self.coefficients(),
            context,
        )
    }

    // Whether N and the played samples of two images are equal.
    pub(crate) fn same_sound(&self, other: &Opened) -> bool
        ensures { result ≡ same_sound self.now other.now }
    {
        let total = self.total();
        let differ = total != other.total();
        if differ {
            return false;
        }
        let mut one = FrameContext::new();
        let mut two = FrameContext::new();
        for i in 0..frame_count(total as usize) {
            let count = frame_samples(total as usize, i);
            let x = self.next_frame(i, count, one);
            let y = other.next_frame(i, count, two);
            if !equal_part(x.samples, y.samples, count) {
                return false;
            }
            one = x.context;
            two = y.context;
        }
        true
    }
}
