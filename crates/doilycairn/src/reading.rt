// Reading an image: opening, the place of a block's body, playing a block, the whole, a part or the loop, sameness (sections 4 and 5).
ghost use Rattle.std.specs.Prelude.{◌≡◌};
ghost use Rattle.image.specs.inner.Asked.{Found};
ghost use Rattle.image.specs.Opening.{outcome, open_image};
ghost use Rattle.image.specs.Looping.{play_loop};
ghost use Rattle.image.specs.Part.{play_from};
ghost use Rattle.image.specs.Playing.{play};
ghost use Rattle.image.specs.Sameness.{same, sounds_same};
ghost use Rattle.image.specs.WholeImage.{play_all};
ghost use Rattle.whole.specs.Outcome.{effect};
ghost use Rattle.doilycairn.specs.Blocks.{play_seen};
ghost use Rattle.doilycairn.specs.Reading.{open_seen, body_at, handed, body_in_c, part_seen, turns_seen, compared_answer};

use crate::answers::{code_of, entry_of};
use crate::blocks::{Playback, played_answer};
use block::FrameContext;
use image::Head;
use image::bodies::read_entry;
use layout::Loop;
use whole::Reason;

// What opening returns. `entry` is here and below the block whose entry is bad, with codes 20, 21 and 22; else 0.
// Stays: a code beside values, here and below, since C takes no Result (include/doilycairn.h, "Answers").
#[repr(C)]
#[derive(Drop)]
pub struct Opening {
    pub code: u32,
    pub entry: u32,
    pub head: Head,
    pub looped: Loop,
    pub context: FrameContext,
}

// Where a block's body stands in the image, and its entry's length and context.
#[repr(C)]
#[derive(Default, Drop)]
pub struct Body {
    pub code: u32,
    pub entry: u32,
    pub offset: u32,
    pub bytes: u32,
    pub nibbles: u32,
    pub context: FrameContext,
}

// What playing from a sample on returns: how many samples were played, and how many blocks touched.
#[repr(C)]
#[derive(Drop)]
pub struct Part {
    pub code: u32,
    pub entry: u32,
    pub samples: u64,
    pub blocks: u32,
}

// What playing the loop returns: how many samples were played.
#[repr(C)]
#[derive(Drop)]
pub struct Turns {
    pub code: u32,
    pub entry: u32,
    pub samples: u64,
}

// What comparing returns.
#[repr(C)]
#[derive(Drop)]
pub struct Comparison {
    pub code: u32,
    pub entry: u32,
    pub same: bool,
}

// What comparing tells.
fn compared_answer(answer: Result<bool, image::Refusal>) -> Comparison
    ensures { result ≡ compared_answer (outcome answer) }
{
    Comparison {
        code: code_of(&answer),
        entry: entry_of(&answer),
        same: answer.unwrap_or(false),
    }
}

// Where block k's body stands and what it is played from, by its entry.
fn body_at(image: &[u8], k: usize) -> Body
    requires { Found image.now k }
    ensures { result ≡ body_at image.now k }
{
    let entry = read_entry(image, k);
    Body {
        code: 0,
        entry: 0,
        offset: entry.offset,
        bytes: entry.nibbles.div_ceil(2),
        nibbles: entry.nibbles,
        context: entry.context,
    }
}

// Opens an image.
#[unsafe(no_mangle)]
pub extern "C" fn doilycairn_open(image: &[u8]) -> Opening
    ensures { result ≡ open_seen (open_image image.now) }
{
    let opened = image::open(image);
    let opening = opened.unwrap_or_default();
    Opening {
        code: code_of(&opened),
        entry: entry_of(&opened),
        head: opening.head,
        looped: opening.looped,
        context: opening.context,
    }
}

// Finds block k's body.
#[unsafe(no_mangle)]
pub extern "C" fn doilycairn_block_body(image: &[u8], k: u32) -> Body
    ensures { handed result image.now ≡ body_in_c image.now k }
{
    match image::block_answer(image, k) {
        Ok(()) => body_at(image, k as usize),
        Err(why) => Body {
            code: why.code(),
            entry: why.bad_block(),
            ..Body::default()
        },
    }
}

// Plays block k.
#[unsafe(no_mangle)]
pub extern "C" fn doilycairn_play(image: &[u8], k: u32, out: &mut [i16]) -> Playback
    ensures { effect result out.new ≡ play_seen (play image.now k out.old) }
{
    played_answer(image::play(image, k, out), FrameContext::new())
}

// Plays the whole image.
#[unsafe(no_mangle)]
pub extern "C" fn doilycairn_play_all(image: &[u8], out: &mut [i16]) -> Playback
    ensures { effect result out.new ≡ play_seen (play_all image.now out.old) }
{
    played_answer(image::play_all(image, out), FrameContext::new())
}

// Plays an image from a sample on.
#[unsafe(no_mangle)]
pub extern "C" fn doilycairn_play_from(image: &[u8], first: u32, out: &mut [i16]) -> Part
    ensures { effect result out.new ≡ part_seen (play_from image.now first out.old) }
{
    let answer = image::play_from(image, first, out);
    let part = answer.unwrap_or_default();
    Part {
        code: code_of(&answer),
        entry: entry_of(&answer),
        samples: part.samples,
        blocks: part.blocks,
    }
}

// Plays the loop of an image some number of times.
#[unsafe(no_mangle)]
pub extern "C" fn doilycairn_play_loop(image: &[u8], times: u32, out: &mut [i16]) -> Turns
    ensures { effect result out.new ≡ turns_seen (play_loop image.now times out.old) }
{
    let answer = image::play_loop(image, times, out);
    Turns {
        code: code_of(&answer),
        entry: entry_of(&answer),
        samples: answer.unwrap_or(0),
    }
}

// Compares two images.
#[unsafe(no_mangle)]
pub extern "C" fn doilycairn_same(first: &[u8], second: &[u8]) -> Comparison
    ensures { result ≡ compared_answer (same first.now second.now) }
{
    compared_answer(image::same(first, second))
}

// Compares the sound of two images.
#[unsafe(no_mangle)]
// Stays: beside doilycairn_same, since C calls each by its name.
pub extern "C" fn doilycairn_sounds_same(first: &[u8], second: &[u8]) -> Comparison
    ensures { result ≡ compared_answer (sounds_same first.now second.now) }
{
    compared_answer(image::sounds_same(first, second))
}
