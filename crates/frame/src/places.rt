// A frame's samples with the two before them and two zeros after them, in one array.
ghost use Rattle.std.specs.Prelude.{◌≡◌};
ghost use Rattle.frame.specs.inner.Places.{Padded, Placed, history_of, samples_of};
ghost use Rattle.frame.specs.inner.Quick.{Fine};

use whole::History;

// The older and the newest sample before a frame, its fourteen samples, two zeros; and the last sixteen, each times 2048 * (2^32 - 1).
// Stays: `fine` beside the samples that it is made of, so that the passes of all eight pairs share it.
#[derive(Drop)]
pub(crate) struct Frame {
    pub samples: [i16; 18],
    pub fine: [i64; 16],
    ghost padded: { Padded samples },
    ghost fine_is: { Fine samples fine },
}

impl Frame {
    // The frame of `samples` after `history`.
    pub(crate) fn new(history: History, samples: [i16; 14]) -> Frame
        ensures before { history_of result.samples ≡ history }
        ensures within { samples_of result.samples ≡ samples }
    {
        let samples = placed(history, samples);
        let fine = fine_of(&samples);
        Frame { samples, fine }
    }
}

// The older and the newest sample before a frame, its fourteen samples, two zeros.
fn placed(history: History, samples: [i16; 14]) -> [i16; 18]
    ensures { Placed history samples result }
{
    let mut out = [0i16; 18];
    out[0] = history.older;
    out[1] = history.newest;
    out[2..16].copy_from_slice(&samples);
    out
}

// The samples and two zeros, each times 2048 * (2^32 - 1).
fn fine_of(frame: &[i16; 18]) -> [i64; 16]
    ensures { Fine frame.now result }
{
    let mut out = [0i64; 16];
    // Stays: by place, since by array::from_fn and by iter_mut() zipped with frame[2..] the proof did not close.
    for i in 0..16 {
        out[i] = 8796093020160 * i64::from(frame[i + 2]);
    }
    out
}
