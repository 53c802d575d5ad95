// Blocks without an image: playing bytes, joining, addresses (sections 4 and 5).
ghost use Rattle.std.specs.Prelude.{◌≡◌};
ghost use Rattle.block.specs.Address.{address_to_sample, sample_to_address};
ghost use Rattle.block.specs.Join.{extend_samples};
ghost use Rattle.block.specs.Play.{final_context, play_bytes};
ghost use Rattle.doilycairn.specs.Blocks.{count_of, played_answer, play_seen, join_seen};
ghost use Rattle.whole.specs.Outcome.{effect};

use crate::answers::{code_of, entry_of};
use block::FrameContext;
use whole::Reason;

// What playing returns. `entry` is 0 where no image is played.
// Stays: a code beside values, here and below, since C takes no Result (include/doilycairn.h, "Answers").
#[repr(C)]
#[derive(Drop)]
pub struct Playback {
    pub code: u32,
    pub entry: u32,
    pub samples: u64,
    pub context: FrameContext,
}

// What joining returns.
#[repr(C)]
#[derive(Drop)]
pub struct Joining {
    pub code: u32,
    pub nibbles: u64,
}

// What an answer of playing tells; a refused one, the context that is kept.
pub(crate) fn played_answer<R: Reason + Copy>(
    answer: Result<block::Playback, R>,
    kept: FrameContext,
) -> Playback
    ensures { result ≡ played_answer (count_of R.number R.named answer) (final_context answer kept) }
{
    let played = answer.unwrap_or(block::Playback {
        samples: 0,
        context: kept,
    });
    Playback {
        code: code_of(&answer),
        entry: entry_of(&answer),
        samples: played.samples,
        context: played.context,
    }
}

// Plays the first nibbles of a block's bytes.
#[unsafe(no_mangle)]
pub extern "C" fn doilycairn_play_bytes(
    bytes: &[u8],
    nibbles: u32,
    coefficients: &[i16; 16],
    context: FrameContext,
    out: &mut [i16],
) -> Playback
    ensures { effect result out.new ≡ play_seen (play_bytes bytes.now nibbles coefficients.now context out.old) }
{
    let played = block::play_bytes(bytes, nibbles, *coefficients, context, out);
    played_answer(played, context)
}

// Joins two blocks.
#[unsafe(no_mangle)]
pub extern "C" fn doilycairn_join(
    first: &[u8],
    first_nibbles: u32,
    first_coefficients: &[i16; 16],
    second: &[u8],
    second_nibbles: u32,
    second_coefficients: &[i16; 16],
    out: &mut [u8],
) -> Joining
    ensures { effect result out.new ≡ join_seen (extend_samples first.now first_nibbles first_coefficients.now second.now second_nibbles second_coefficients.now out.old) }
{
    let answer = block::extend_samples(
        first,
        first_nibbles,
        *first_coefficients,
        second,
        second_nibbles,
        *second_coefficients,
        out,
    );
    Joining {
        code: code_of(&answer),
        nibbles: answer.unwrap_or(0),
    }
}

// The samples before an address.
#[unsafe(no_mangle)]
pub extern "C" fn doilycairn_address_to_sample(address: u32) -> u64
    ensures { result ≡ address_to_sample address }
{
    block::address_to_sample(address)
}

// The address of a sample.
#[unsafe(no_mangle)]
pub extern "C" fn doilycairn_sample_to_address(sample: u32) -> u64
    ensures { result ≡ sample_to_address sample }
{
    block::sample_to_address(sample)
}
