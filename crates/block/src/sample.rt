// One sample of a nibble.
ghost use Rattle.std.specs.Prelude.{◌≡◌, ◌+◌, ◌*◌, ◌<◌, ◌≤◌, pos, get_or};
ghost use Rattle.block.specs.Context.{predictor, scale};
ghost use Rattle.block.specs.Sample.{decode_sample};
ghost use Rattle.block.specs.inner.Nibbles.{advanced};
ghost use Rattle.whole.specs.Whole.{signed_nibble};

use crate::FrameContext;
use whole::History;

// A nibble of 8 or more counts as itself less 16.
#[tactic(auto, unfolding(whole::specs::Whole::signed_nibble))]
fn signed_nibble(nibble: u8) -> i64
    requires { nibble < 16 }
    ensures { result ≡ signed_nibble nibble }
{
    let positive = nibble < 8;
    if positive {
        i64::from(nibble)
    } else {
        i64::from(nibble) - 16
    }
}

// What makes samples of a frame's nibbles: a pair of coefficients and a scale.
#[derive(Clone, Copy)]
pub(crate) struct Filter {
    c0: i16,
    c1: i16,
    scale: u32,
    ghost in_range: { scale ≤ 32768 },
}

impl Filter {
    // The pair and the scale that a context's header names.
    pub(crate) fn new(coefficients: [i16; 16], context: FrameContext) -> Filter
        ensures newest { result.c0 ≡ get_or coefficients (2 * predictor context.predictor_and_scale) (pos 0) }
        ensures older { result.c1 ≡ get_or coefficients (2 * predictor context.predictor_and_scale + 1) (pos 0) }
        ensures steps { result.scale ≡ scale context.predictor_and_scale }
    {
        let index = 2 * context.predictor();
        Filter {
            c0: coefficients[index],
            c1: coefficients[index + 1],
            scale: context.scale(),
        }
    }

    // The sample of a nibble after a history.
    fn decode_sample(self, history: History, nibble: u8) -> i16
        requires { nibble < 16 }
        ensures { result ≡ decode_sample self.c0 self.c1 history.newest history.older nibble self.scale }
    {
        let products = i64::from(self.c0) * i64::from(history.newest)
            + i64::from(self.c1) * i64::from(history.older);
        let sum = products + 1024;
        whole::clamp_i16(whole::shift_11(sum) + signed_nibble(nibble) * i64::from(self.scale))
    }

    // The history after one nibble more: its newest is the nibble's sample.
    pub(crate) fn advance(self, history: History, nibble: u8) -> History
        requires { nibble < 16 }
        ensures { result ≡ advanced self.c0 self.c1 self.scale history nibble }
    {
        History {
            newest: self.decode_sample(history, nibble),
            older: history.newest,
        }
    }
}
