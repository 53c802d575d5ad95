// Playing a part of a block: the context at a sample, and playing on from there.
ghost use Rattle.std.specs.Prelude.{◌≡◌, [], ◌+◌, ◌*◌, ◌/◌, ◌%◌, ◌≤◌, ◌<◌, length};
ghost use Rattle.block.specs.Address.{address_to_sample};
ghost use Rattle.block.specs.Frame.{playing};
ghost use Rattle.block.specs.Play.{play};
ghost use Rattle.block.specs.inner.Frames.{play_frame};
ghost use Rattle.block.specs.inner.Parts.{play_on};

use crate::play::{NIBBLES_PER_FRAME, frames_before_last, play_into};
use crate::sample::Filter;
use crate::{FrameContext, play_frame};
use whole::{BYTES_PER_FRAME, SAMPLES_PER_FRAME};

// The context after `count` samples of the frame at byte `at`.
// Stays: image's played_frame keeps the samples too; both are one call of play_frame to a frame's room.
fn frame_context(
    bytes: &[u8],
    at: usize,
    count: usize,
    coefficients: [i16; 16],
    context: FrameContext,
) -> FrameContext
    requires { (2 * at + 2 + count ≤ 2 * length bytes.now) × (count ≤ 14) }
    ensures { result ≡ (play_frame bytes.now at count coefficients (playing context [])).context }
{
    let mut dropped = [0i16; 14];
    play_frame(bytes, at, count, coefficients, context, &mut dropped, 0)
}

// The context after the first `len` nibbles of a block's bytes.
// internal: what playing from a sample on is made of.
// Stays: play_into is the same walk; one for both would take the step as a closure, with a contract that says of any step what each says here of its own.
pub fn context_after(
    bytes: &[u8],
    len: usize,
    coefficients: [i16; 16],
    context: FrameContext,
) -> FrameContext
    requires { (0 < len) × (len ≤ 2 * length bytes.now) }
    ensures { result ≡ (play bytes.now coefficients len context).context }
{
    let whole = frames_before_last(len);
    let mut current = context;
    for k in 0..whole {
        let after = frame_context(
            bytes,
            BYTES_PER_FRAME * k,
            SAMPLES_PER_FRAME,
            coefficients,
            current,
        );
        current = after.with_header(bytes[BYTES_PER_FRAME * (k + 1)]);
    }
    let count = (len - NIBBLES_PER_FRAME * whole).saturating_sub(2);
    frame_context(bytes, BYTES_PER_FRAME * whole, count, coefficients, current)
}

// Plays from a sample's address on up to `len`, which is in the same frame or at its end.
// Stays: play_frame has this body at a frame's start; each promises another definition (play_on, play_frame), and shared they are longer.
fn play_rest(
    bytes: &[u8],
    from: usize,
    len: usize,
    coefficients: [i16; 16],
    context: FrameContext,
    out: &mut [i16],
) -> FrameContext
    requires { (2 ≤ from % 16) × (from < len) × (len ≤ 16 * (from / 16) + 16) × (len ≤ 2 * length bytes.now) × (len ≤ from + length out.old) }
    ensures { playing result out.new ≡ play_on bytes.now coefficients from len context out.old }
{
    let filter = Filter::new(coefficients, context);
    FrameContext {
        last_samples: filter.play_from_nibble(
            bytes,
            from,
            context.last_samples,
            &mut out[..len - from],
        ),
        ..context
    }
}

// Plays from a sample's address on up to `len`, under the context's header, to the output from its start on.
// internal: what playing from a sample on is made of.
pub fn play_on(
    bytes: &[u8],
    from: usize,
    len: usize,
    coefficients: [i16; 16],
    context: FrameContext,
    out: &mut [i16],
) -> FrameContext
    requires { (2 ≤ from % 16) × (from < len) × (len ≤ 2 * length bytes.now) × (address_to_sample len ≤ address_to_sample from + length out.old) }
    ensures { playing result out.new ≡ play_on bytes.now coefficients from len context out.old }
{
    let rest = 16 - from % 16;
    if len - from <= rest {
        return play_rest(bytes, from, len, coefficients, context, out);
    }
    let end = from + rest;
    let after = play_rest(bytes, from, end, coefficients, context, out);
    let next = after.with_header(bytes[end / 2]);
    play_into(
        &bytes[end / 2..],
        len - end,
        coefficients,
        next,
        &mut out[rest..],
    )
}
