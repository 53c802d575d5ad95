// The line of an answer: the refusal's number and the block that it names, zeros where there is none, and then the call's values.
use block::{FrameContext, Playback};
use image::{Head, Opening, Part, Refusal};
use replay::{Digits, HistoryDigits, told};
use std::io::{self, Write};

// Writes whether a call is accepted.
fn write_told<T>(writer: &mut impl Write, answer: &Result<T, Refusal>) -> io::Result<()> {
    let (code, block) = told(answer);
    write!(writer, "{code:02x} {block:08x}")
}

// Writes a context's header and its two samples.
fn write_context(writer: &mut impl Write, context: FrameContext) -> io::Result<()> {
    // Stays: header and samples in two, since the lists differ in spaces and crate replay does not know a FrameContext.
    write!(writer, " {:04x} ", context.predictor_and_scale)?;
    write!(writer, "{}", HistoryDigits(context.last_samples))
}

// Writes a head's values, in the image's order.
fn write_head(writer: &mut impl Write, head: Head) -> io::Result<()> {
    write!(
        writer,
        " {:08x} {:08x} {:08x}",
        head.total, head.rate, head.block
    )?;
    write!(
        writer,
        " {} {:04x} {:08x}",
        Digits(&head.coefficients),
        head.gain,
        head.blocks
    )
}

// Writes the values of a head, zeros where the image is refused, and its loop where it has one.
pub(crate) fn write_opening(
    writer: &mut impl Write,
    opened: Result<Opening, Refusal>,
) -> io::Result<()> {
    write_told(writer, &opened)?;
    let Opening {
        head,
        looped,
        context,
    } = opened.unwrap_or_default();
    write_head(writer, head)?;
    if looped.present {
        write!(writer, " {:08x} {:08x}", looped.start, looped.end)?;
        write_context(writer, context)?;
    }
    Ok(())
}

// Writes a block's body, which is empty where the call is refused.
pub(crate) fn write_body(
    writer: &mut impl Write,
    answer: Result<(), Refusal>,
    body: &[u8],
) -> io::Result<()> {
    write_told(writer, &answer)?;
    write!(writer, " {}", Digits(body))
}

// Writes the count, the context and the output.
pub(crate) fn write_played(
    writer: &mut impl Write,
    played: Result<Playback, Refusal>,
    out: &[i16],
) -> io::Result<()> {
    write_told(writer, &played)?;
    let Playback { samples, context } = played.unwrap_or(Playback {
        samples: 0,
        context: FrameContext::default(),
    });
    write!(writer, " {samples:08x}")?;
    write_context(writer, context)?;
    write!(writer, " {}", Digits(out))
}

// Writes the count, the number of blocks touched and the output.
pub(crate) fn write_part(
    writer: &mut impl Write,
    part: Result<Part, Refusal>,
    out: &[i16],
) -> io::Result<()> {
    write_told(writer, &part)?;
    let Part { samples, blocks } = part.unwrap_or_default();
    write!(writer, " {samples:08x} {blocks:08x} {}", Digits(out))
}

// Writes the count of a loop's samples and the output.
pub(crate) fn write_turns(
    writer: &mut impl Write,
    count: Result<u64, Refusal>,
    out: &[i16],
) -> io::Result<()> {
    write_told(writer, &count)?;
    write!(writer, " {:08x} {}", count.unwrap_or_default(), Digits(out))
}

// Writes whether two images are, or sound, the same.
pub(crate) fn write_same(writer: &mut impl Write, same: Result<bool, Refusal>) -> io::Result<()> {
    write_told(writer, &same)?;
    write!(writer, " {:08x}", u32::from(same.unwrap_or_default()))
}
