// Reading a clip image: opening, the body of a block, playing a block, the whole, a part or the loop, sameness.
#![tactic(auto)]

ghost use Rattle.std.specs.Prelude.{◌≡◌};
ghost use Rattle.block.specs.Context.{new_context};
ghost use Rattle.block.specs.Frame.{playing};
ghost use Rattle.block.specs.Play.{final_context};
ghost use Rattle.image.specs.Opening.{code, bad_block, outcome, told_by, open_image};
ghost use Rattle.whole.specs.Outcome.{effect, without_values};
ghost use Rattle.image.specs.Bodies.{block_answer, block_part};
ghost use Rattle.image.specs.Looping.{play_loop};
ghost use Rattle.image.specs.Part.{part_outcome, play_from};
ghost use Rattle.image.specs.Playing.{play_outcome, play};
ghost use Rattle.image.specs.Sameness.{same, sounds_same};
ghost use Rattle.image.specs.WholeImage.{play_all};

mod agreeing;
pub mod bodies;
pub mod checks;
mod comparing;
pub mod entries;
pub mod heading;
pub mod loops;
mod opened;
mod playing;
mod running;

use block::{FrameContext, Playback};
use bodies::{find_body, read_entry};
use checks::{both_answer, from_answer, open_answer};
use heading::read_head;
use layout::Loop;
use layout::fields::get32;
use loops::{loop_context, read_loop};
use opened::Opened;
use whole::Reason;

// Why a call is refused; three of them name the block whose entry is bad.
#[derive(Clone, Copy, Debug, PartialEq, Eq)]
pub enum Refusal {
    LowestPair,
    OutputTooShort,
    BadHead,
    NoSuchBlock,
    NoSuchSample,
    BadOffset(u32),
    BadLength(u32),
    BadHeader(u32),
    BadLoop,
}

// What the head of an image says: N, rate, B, gain, coefficients and K.
#[repr(C)]
#[derive(Clone, Copy, Default)]
pub struct Head {
    pub total: u32,
    pub rate: u32,
    pub block: u32,
    pub gain: u16,
    pub coefficients: [i16; 16],
    pub blocks: u32,
}

// What opening tells: the head's values, and the loop with the context at its start, zeros where there is none.
#[derive(Clone, Copy, Default)]
pub struct Opening {
    pub head: Head,
    pub looped: Loop,
    pub context: FrameContext,
}

// What playing from a sample on gives: how many samples were played and how many blocks touched.
#[derive(Clone, Copy, Default)]
pub struct Part {
    pub samples: u64,
    pub blocks: u32,
}

impl Reason for Refusal {
    ghost number = { code };

    ghost named = { bad_block };

    // The number of a refusal in documents 01 and 02.
    fn code(self) -> u32 {
        match self {
            Refusal::LowestPair => 13,
            Refusal::OutputTooShort => 14,
            Refusal::BadHead => 15,
            Refusal::NoSuchBlock => 17,
            Refusal::NoSuchSample => 19,
            Refusal::BadOffset(_) => 20,
            Refusal::BadLength(_) => 21,
            Refusal::BadHeader(_) => 22,
            Refusal::BadLoop => 24,
        }
    }

    // The block whose entry is bad, or 0 where the refusal names none.
    fn bad_block(self) -> u32 {
        match self {
            Refusal::BadOffset(j) | Refusal::BadLength(j) | Refusal::BadHeader(j) => j,
            _ => 0,
        }
    }
}

// Opens an image: checks its head, its entries and its loop, and tells the head's values, the loop and the context at its start.
pub fn open(image: &[u8]) -> Result<Opening, Refusal>
    ensures { effect (without_values (outcome result)) (told_by result) ≡ open_image image.now }
{
    open_answer(image)?;
    let head = read_head(image);
    let looped = read_loop(image);
    let context = loop_context(image, looped);
    Ok(Opening {
        head,
        looped,
        context,
    })
}

// Whether there is a block k, by codes 15, 20, 21, 22, 24 and 17: what `block_body` and `play` ask first.
pub fn block_answer(image: &[u8], k: u32) -> Result<(), Refusal>
    ensures { outcome result ≡ block_answer image.now k }
{
    open_answer(image)?;
    if k >= get32(image, 52) {
        return Err(Refusal::NoSuchBlock);
    }
    Ok(())
}

// Block k's body, as that part of the image; where `block_answer` refuses, no bytes.
pub fn block_body<'a>(image: &'a [u8], k: u32) -> &'a [u8]
    ensures { effect result.ref_ptr result.now ≡ block_part image.entry.ref_ptr image.now k }
{
    match block_answer(image, k) {
        Ok(()) => {
            let entry = read_entry(image, k as usize);
            find_body(image, entry.offset as usize, entry.nibbles as usize)
        }
        Err(_) => &image[..0],
    }
}

// Plays block k of an image to the output.
pub fn play(image: &[u8], k: u32, out: &mut [i16]) -> Result<Playback, Refusal>
    ensures { effect (play_outcome result) (playing (final_context result new_context) out.new) ≡ play image.now k out.old }
{
    block_answer(image, k)?;
    Opened::of(image).play(k as usize, out)
}

// Plays a whole image to the output: blocks 0 to K-1 in turn, joined. The table is tested once.
pub fn play_all(image: &[u8], out: &mut [i16]) -> Result<Playback, Refusal>
    ensures { effect (play_outcome result) (playing (final_context result new_context) out.new) ≡ play_all image.now out.old }
{
    open_answer(image)?;
    Opened::of(image).play_all(out)
}

// Plays an image from sample `first` on, until the output is full or the clip ends; across blocks, each from its own entry.
pub fn play_from(image: &[u8], first: u32, out: &mut [i16]) -> Result<Part, Refusal>
    ensures { effect (part_outcome result) out.new ≡ play_from image.now first out.old }
{
    from_answer(image, first)?;
    Ok(Opened::of(image).play_from(first as usize, out))
}

// Plays the loop of an image so many times over to the output, each time from the stored context; without a loop, no samples.
pub fn play_loop(image: &[u8], times: u32, out: &mut [i16]) -> Result<u64, Refusal>
    ensures { effect (outcome result) out.new ≡ play_loop image.now times out.old }
{
    open_answer(image)?;
    Opened::of(image).play_loop(times, out)
}

// Whether two images are the same: N, rate, gain, B, coefficients, every context, the loop and the played samples agree.
pub fn same(a: &[u8], b: &[u8]) -> Result<bool, Refusal>
    ensures { outcome result ≡ same a.now b.now }
{
    both_answer(a, b)?;
    Ok(Opened::of(a).agree(&Opened::of(b)))
}

// Whether two images sound the same: N is equal and the played samples are equal, whatever else differs.
// Stays: beside `same`, since C calls each (doilycairn_same, doilycairn_sounds_same); one that an argument told which would be no shorter.
pub fn sounds_same(a: &[u8], b: &[u8]) -> Result<bool, Refusal>
    ensures { outcome result ≡ sounds_same a.now b.now }
{
    both_answer(a, b)?;
    Ok(Opened::of(a).same_sound(&Opened::of(b)))
}
