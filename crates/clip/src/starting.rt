// What a clip is started with, and the state before its first sample.
ghost use Rattle.std.specs.Prelude.{◌≡◌};
ghost use Rattle.clip.specs.Encoding.{begun};
ghost use Rattle.clip.specs.Image.{cut, start_shape};

use crate::Encoder;
use layout::sizes::{cut_down, loop_count, shape_of, told_loop};
use layout::{Loop, Shape};
use whole::History;

// What a clip is started with: N, the rate, the block size, the gain, the coefficients, the history before its first sample, and its loop.
#[derive(Clone, Copy, Default, PartialEq, Eq)]
pub struct Start {
    pub total: u32,
    pub rate: u32,
    pub block: u32,
    pub gain: u16,
    pub coefficients: [i16; 16],
    pub history: History,
    pub looped: Loop,
}

impl Start {
    // The same with its block size cut down to a multiple of 8, and zeros for no loop.
    pub(crate) fn cut(self) -> Start
        ensures { result ≡ cut self }
    {
        Start {
            block: cut_down(self.block),
            looped: told_loop(self.looped),
            ..self
        }
    }

    // The shape of a clip that was started so. It is internal: crate dsp calls it.
    // Stays: the encoding state's `shape` has the same one line; a trait for the two is longer.
    pub fn shape(self) -> Shape
        ensures { result ≡ start_shape self }
    {
        shape_of(self.total, self.block, loop_count(self.looped))
    }

    // The state before the first sample.
    pub(crate) fn begun(self) -> Encoder
        ensures { result ≡ begun self }
    {
        let Start {
            total,
            rate,
            block,
            gain,
            coefficients,
            history,
            looped,
        } = self;
        Encoder {
            total,
            rate,
            block,
            gain,
            coefficients,
            history,
            looped,
            ..Encoder::default()
        }
    }
}
