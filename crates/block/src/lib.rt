// Blocks of DSP ADPCM: addresses, contexts, playing bytes, joining.
#![tactic(auto)]

pub mod coefficients;
mod frame;
pub mod join;
pub mod part;
pub mod play;
mod sample;

ghost use Rattle.std.specs.Prelude.{◌≡◌, ◌+◌, ◌*◌, ◌≤◌, length, []};
ghost use Rattle.block.specs.Address.{address_to_sample, sample_to_address};
ghost use Rattle.block.specs.Context.{predictor, scale, push_sample, with_header, new_context};
ghost use Rattle.block.specs.Frame.{playing, into};
ghost use Rattle.block.specs.inner.Frames.{play_frame};
ghost use Rattle.block.specs.Refusals.{code};
ghost use Rattle.block.specs.Play.{play_bytes, play_outcome, final_context};
ghost use Rattle.block.specs.Join.{extend_samples, join_outcome};
ghost use Rattle.whole.specs.Outcome.{effect};

use crate::sample::Filter;
use whole::{History, Reason, SAMPLES_PER_FRAME};

// What playing carries from frame to frame: the header, and the newest sample and the one before it.
#[repr(C)]
#[derive(Clone, Copy, Default, PartialEq, Eq)]
pub struct FrameContext {
    pub predictor_and_scale: u16,
    pub last_samples: History,
}

// Why a call is refused.
#[derive(Clone, Copy, Debug, PartialEq, Eq)]
pub enum Refusal {
    LengthOutOfRange,
    LowestPair,
    OutputTooShort,
    CoefficientsDiffer,
}

// What playing gives: the sample count and the final context.
#[derive(Clone, Copy, PartialEq, Eq)]
pub struct Playback {
    pub samples: u64,
    pub context: FrameContext,
}

impl Reason for Refusal {
    ghost number = { code };

    ghost named = { λ r. 0 };

    // Document 01's number of a refusal.
    fn code(self) -> u32 {
        match self {
            Refusal::LengthOutOfRange => 12,
            Refusal::LowestPair => 13,
            Refusal::OutputTooShort => 14,
            Refusal::CoefficientsDiffer => 18,
        }
    }

    // A block's bytes alone are lent, so none is named.
    fn bad_block(self) -> u32 {
        0
    }
}

impl FrameContext {
    // All zeros.
    pub fn new() -> FrameContext
        ensures { result ≡ new_context }
    {
        FrameContext::default()
    }

    // The index of the coefficients' pair.
    #[tactic(auto, unfolding(crate::specs::Context::predictor))]
    pub fn predictor(self) -> usize
        ensures { result ≡ predictor self.predictor_and_scale }
    {
        usize::from(self.predictor_and_scale / 16 % 8)
    }

    // What a nibble is multiplied by.
    #[tactic(auto, using(crate::proofs::LawsContext::scale_word))]
    pub fn scale(self) -> u32
        ensures { result ≡ scale self.predictor_and_scale }
    {
        1u32 << (self.predictor_and_scale % 16)
    }

    // The context under another header.
    #[tactic(auto, unfolding(crate::specs::Context::with_header))]
    pub fn with_header(self, header: u8) -> FrameContext
        ensures { result ≡ with_header self header }
    {
        FrameContext {
            predictor_and_scale: u16::from(header),
            ..self
        }
    }

    // The context with one sample more in its history.
    #[tactic(auto, unfolding(crate::specs::Context::push_sample))]
    pub fn push_sample(self, sample: i16) -> FrameContext
        ensures { result ≡ push_sample self sample }
    {
        FrameContext {
            last_samples: History {
                newest: sample,
                older: self.last_samples.newest,
            },
            ..self
        }
    }
}

// The samples before an address.
#[tactic(auto, unfolding(crate::specs::Address::address_to_sample))]
pub fn address_to_sample(address: u32) -> u64
    ensures { result ≡ address_to_sample address }
{
    let beyond_header = (address % 16).saturating_sub(2);
    SAMPLES_PER_FRAME as u64 * u64::from(address / 16) + u64::from(beyond_header)
}

// The address of a sample.
#[tactic(auto, unfolding(crate::specs::Address::sample_to_address))]
pub fn sample_to_address(sample: u32) -> u64
    ensures { result ≡ sample_to_address sample }
{
    let sample = u64::from(sample);
    let headers = sample / SAMPLES_PER_FRAME as u64 + 1;
    sample + 2 * headers
}

// The step: `count` samples of the frame at byte `at`, under the context's header, written to the output from `to` on.
// internal: what playing a block, playing from its middle, comparing and voices are made of.
// Stays: four arguments and no struct, here, in play.rt and in part.rt, since docs/DECISIONS.md names play_frame, context_after and play_on, and C calls play_bytes.
pub fn play_frame(
    bytes: &[u8],
    at: usize,
    count: usize,
    coefficients: [i16; 16],
    context: FrameContext,
    out: &mut [i16],
    to: usize,
) -> FrameContext
    requires { (2 * at + 2 + count ≤ 2 * length bytes.now) × (to + count ≤ length out.old) }
    ensures { playing result out.new ≡ into out.old to (play_frame bytes.now at count coefficients (playing context [])) }
{
    let filter = Filter::new(coefficients, context);
    FrameContext {
        last_samples: filter.play_from_nibble(
            bytes,
            2 * at + 2,
            context.last_samples,
            &mut out[to..to + count],
        ),
        ..context
    }
}

// Plays the first `len` nibbles of a block's bytes to the output.
pub fn play_bytes(
    bytes: &[u8],
    len: u32,
    coefficients: [i16; 16],
    context: FrameContext,
    out: &mut [i16],
) -> Result<Playback, Refusal>
    ensures { effect (play_outcome result) (playing (final_context result context) out.new) ≡ play_bytes bytes.now len coefficients context out.old }
{
    if play::bad_length(len, bytes.len()) {
        return Err(Refusal::LengthOutOfRange);
    }
    if coefficients::lowest_pair(coefficients) {
        return Err(Refusal::LowestPair);
    }
    let count = address_to_sample(len);
    let short = (out.len() as u64) < count;
    if short {
        return Err(Refusal::OutputTooShort);
    }
    let after = play::play_into(bytes, len as usize, coefficients, context, out);
    Ok(Playback {
        samples: count,
        context: after,
    })
}

// Joins two blocks, the first one's bytes and then the second's to the output, and answers the sum of their lengths in nibbles.
pub fn extend_samples(
    first: &[u8],
    first_len: u32,
    first_coefficients: [i16; 16],
    second: &[u8],
    second_len: u32,
    second_coefficients: [i16; 16],
    out: &mut [u8],
) -> Result<u64, Refusal>
    ensures { effect (join_outcome result) out.new ≡ extend_samples first.now first_len first_coefficients second.now second_len second_coefficients out.old }
{
    if join::shorter(out.len(), first.len(), second.len()) {
        return Err(Refusal::OutputTooShort);
    }
    if !coefficients::equal_coefficients(first_coefficients, second_coefficients) {
        return Err(Refusal::CoefficientsDiffer);
    }
    join::copy(first, out, 0);
    join::copy(second, out, first.len());
    Ok(u64::from(first_len) + u64::from(second_len))
}
