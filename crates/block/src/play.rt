// Playing a block, frame by frame.
ghost use Rattle.std.specs.Prelude.{◌≡◌, ◌-◌, ◌*◌, ◌/◌, ◌≤◌, ◌<◌, length};
ghost use Rattle.block.specs.Address.{address_to_sample};
ghost use Rattle.block.specs.Frame.{playing};
ghost use Rattle.block.specs.Refusals.{bad_length};
ghost use Rattle.block.specs.Play.{play_into};

use crate::{FrameContext, play_frame};
use whole::{BYTES_PER_FRAME, SAMPLES_PER_FRAME};

// The nibbles of a frame, those of its header too.
pub(crate) const NIBBLES_PER_FRAME: usize = 16;

// Whether a length in nibbles is 0 or above twice the bytes.
#[tactic(auto, using(std::proofs::lemmas::Bool::Decides::nat_tests), unfolding(crate::specs::Refusals::bad_length))]
pub(crate) fn bad_length(len: u32, bytes: usize) -> bool
    ensures { result ≡ bad_length len bytes }
{
    len == 0 || bytes < (len as usize).div_ceil(2)
}

// The frames of a block of `len` nibbles that another follows.
pub(crate) fn frames_before_last(len: usize) -> usize
    ensures { result ≡ (len - 1) / 16 }
{
    len.saturating_sub(1) / 16
}

// Plays a block of `len` nibbles: whole frames while more nibbles follow, then the last frame. It is internal: crate image calls it.
pub fn play_into(
    bytes: &[u8],
    len: usize,
    coefficients: [i16; 16],
    context: FrameContext,
    out: &mut [i16],
) -> FrameContext
    requires { (0 < len) × (len ≤ 2 * length bytes.now) × (address_to_sample len ≤ length out.old) }
    ensures { playing result out.new ≡ play_into bytes.now coefficients len context out.old }
{
    let whole = frames_before_last(len);
    let mut current = context;
    for k in 0..whole {
        let after = play_frame(
            bytes,
            BYTES_PER_FRAME * k,
            SAMPLES_PER_FRAME,
            coefficients,
            current,
            out,
            SAMPLES_PER_FRAME * k,
        );
        current = after.with_header(bytes[BYTES_PER_FRAME * (k + 1)]);
    }
    let count = (len - NIBBLES_PER_FRAME * whole).saturating_sub(2);
    play_frame(
        bytes,
        BYTES_PER_FRAME * whole,
        count,
        coefficients,
        current,
        out,
        SAMPLES_PER_FRAME * whole,
    )
}
