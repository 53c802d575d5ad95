// The tests of the calls, in the documents' sequence.
ghost use Rattle.std.specs.Prelude.{◌≡◌};
ghost use Rattle.image.specs.Opening.{outcome, open_answer};
ghost use Rattle.image.specs.Playing.{room_answer};
ghost use Rattle.image.specs.Part.{from_answer};
ghost use Rattle.image.specs.Sameness.{compare_answer, both_answer};

use crate::Refusal;
use crate::entries::entries_answer;
use crate::heading::{head_ok, read_coefficients, read_shape};
use crate::loops::loop_fits;
use block::coefficients::lowest_pair;
use layout::fields::get32;

// Codes 15, 20, 21, 22 and 24.
pub(crate) fn open_answer(image: &[u8]) -> Result<(), Refusal>
    ensures { outcome result ≡ open_answer image.now }
{
    if !head_ok(image) {
        return Err(Refusal::BadHead);
    }
    entries_answer(image, read_shape(image))?;
    if !loop_fits(image) {
        return Err(Refusal::BadLoop);
    }
    Ok(())
}

// Codes 13 and 14, for so many samples and an output of some room.
pub(crate) fn room_answer(coefficients: [i16; 16], samples: u64, room: usize) -> Result<(), Refusal>
    ensures { outcome result ≡ room_answer coefficients samples room }
{
    if lowest_pair(coefficients) {
        return Err(Refusal::LowestPair);
    }
    let short = (room as u64) < samples;
    if short {
        return Err(Refusal::OutputTooShort);
    }
    Ok(())
}

// Codes 15, 20, 21, 22, 24 and 13. It is internal: crate dsp calls it.
pub fn compare_answer(image: &[u8]) -> Result<(), Refusal>
    ensures { outcome result ≡ compare_answer image.now }
{
    open_answer(image)?;
    let coefficients = read_coefficients(image);
    if lowest_pair(coefficients) {
        return Err(Refusal::LowestPair);
    }
    Ok(())
}

// Codes 15, 20, 21, 22, 24 and 13 of the first image, then of the second.
pub(crate) fn both_answer(a: &[u8], b: &[u8]) -> Result<(), Refusal>
    ensures { outcome result ≡ both_answer a.now b.now }
{
    compare_answer(a)?;
    compare_answer(b)
}

// Codes 15, 20, 21, 22, 24, 13 and 19.
pub(crate) fn from_answer(image: &[u8], first: u32) -> Result<(), Refusal>
    ensures { outcome result ≡ from_answer image.now first }
{
    compare_answer(image)?;
    if first >= get32(image, 4) {
        return Err(Refusal::NoSuchSample);
    }
    Ok(())
}
