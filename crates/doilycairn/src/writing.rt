// Encoding a frame, and starting, feeding and closing a clip (sections 2 and 3).
ghost use Rattle.std.specs.Prelude.{◌≡◌};
ghost use Rattle.doilycairn.specs.Writing.{frame_seen, encoding_answer, clip_seen, given, between};
ghost use Rattle.whole.specs.Outcome.{effect};
ghost use Rattle.frame.specs.Frame.{encode_one_frame};
ghost use Rattle.layout.specs.Sizes.{no_loop};
ghost use Rattle.clip.specs.Encoding.{start, feed, close};

use crate::answers::code_of;
use clip::Encoder;
use clip::starting::Start;
use frame::OneFrame;
use layout::Loop;
use whole::History;

// What encoding one frame returns.
// Stays: a code beside values, here and below, since C takes no Result (include/doilycairn.h, "Answers").
#[repr(C)]
#[derive(Drop)]
pub struct Frame {
    pub code: u32,
    pub bytes: [u8; 8],
    pub passes: u32,
    pub history: History,
}

// What starting, feeding and closing return.
#[repr(C)]
#[derive(Drop)]
pub struct Encoding {
    pub code: u32,
    pub encoder: Encoder,
}

// What an answer on a clip tells; a refused one, the state that is kept.
fn encoding_answer(answer: Result<Encoder, clip::Refusal>, kept: Encoder) -> Encoding
    ensures { result ≡ encoding_answer answer kept }
{
    Encoding {
        code: code_of(&answer),
        encoder: answer.unwrap_or(kept),
    }
}

// Encodes one frame.
#[unsafe(no_mangle)]
pub extern "C" fn doilycairn_encode_frame(
    history: History,
    samples: &[i16; 14],
    coefficients: &[i16; 16],
) -> Frame
    ensures { result ≡ frame_seen (encode_one_frame history samples.now coefficients.now) }
{
    let encoded = frame::encode_one_frame(history, *samples, *coefficients);
    let OneFrame {
        bytes,
        passes,
        history,
    } = encoded.unwrap_or(OneFrame {
        bytes: [0; 8],
        passes: 0,
        history,
    });
    Frame {
        code: code_of(&encoded),
        bytes,
        passes,
        history,
    }
}

// Starts a clip.
fn start(given: Start, image: &mut [u8]) -> Encoding
    ensures { effect result image.new ≡ clip_seen (start given image.old) }
{
    encoding_answer(clip::start(given, image), Encoder::default())
}

// Starts a clip without a loop.
#[unsafe(no_mangle)]
pub extern "C" fn doilycairn_start(
    total: u32,
    rate: u32,
    block_size: u32,
    gain: u16,
    coefficients: &[i16; 16],
    history: History,
    image: &mut [u8],
) -> Encoding
    ensures { effect result image.new ≡ clip_seen (start (given total rate block_size gain coefficients.now history no_loop) image.old) }
{
    let given = Start {
        total,
        rate,
        block: block_size,
        gain,
        coefficients: *coefficients,
        history,
        looped: Loop::default(),
    };
    start(given, image)
}

// Starts a clip with a loop.
#[unsafe(no_mangle)]
// Stays: beside doilycairn_start, since C calls each by its name.
pub extern "C" fn doilycairn_start_loop(
    total: u32,
    rate: u32,
    block_size: u32,
    gain: u16,
    coefficients: &[i16; 16],
    history: History,
    loop_start: u32,
    loop_end: u32,
    image: &mut [u8],
) -> Encoding
    ensures { effect result image.new ≡ clip_seen (start (given total rate block_size gain coefficients.now history (between loop_start loop_end)) image.old) }
{
    let given = Start {
        total,
        rate,
        block: block_size,
        gain,
        coefficients: *coefficients,
        history,
        looped: Loop {
            start: loop_start,
            end: loop_end,
            present: true,
        },
    };
    start(given, image)
}

// Feeds a piece.
#[unsafe(no_mangle)]
pub extern "C" fn doilycairn_feed(encoder: Encoder, piece: &[i16], image: &mut [u8]) -> Encoding
    ensures { effect result image.new ≡ clip_seen (feed encoder piece.now image.old) }
{
    encoding_answer(clip::feed(encoder, piece, image), encoder)
}

// Closes a clip.
#[unsafe(no_mangle)]
pub extern "C" fn doilycairn_close(encoder: Encoder, image: &mut [u8]) -> Encoding
    ensures { effect result image.new ≡ clip_seen (close encoder image.old) }
{
    encoding_answer(clip::close(encoder, image), encoder)
}
