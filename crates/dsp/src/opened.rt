// An image that export takes, as far as its own bytes say.
ghost use Rattle.std.specs.Prelude.{◌≡◌, ◌≤◌};
ghost use Rattle.whole.specs.Outcome.{with_values};
ghost use Rattle.image.specs.Reading.{total_in};
ghost use Rattle.image.specs.Sameness.{compare_answer};
ghost use Rattle.dsp.specs.Answers.{outcome};
ghost use Rattle.dsp.specs.File.{file_bytes};

use crate::Refusal;
use crate::fields::HEADER_BYTES;
use image::checks::compare_answer;
use layout::fields::get32;
use layout::sizes::body_bytes;
use std::marker::Model;

// An image that opens. A clause sees its bytes.
// Stays: crate image has a type of this meaning for itself, with the coefficients beside the bytes; to share it a dozen of its methods would be public.
#[derive(Drop)]
pub(crate) struct Opened<'a> {
    pub(crate) bytes: &'a [u8],
}

impl<'a> Model for Opened<'a> {
    ghost use Rattle.std.specs.Prelude.{ℕ, List};

    ghost Value = { List ℕ };

    ghost view = { λ image. image.bytes.now };

    ghost use Rattle.image.specs.inner.Asked.{Opens};

    ghost invariant = { λ image. Opens image.bytes.now };
}

impl<'a> Opened<'a> {
    // The image, by codes 15, 20, 21, 22, 24 and 13.
    pub(crate) fn read(bytes: &'a [u8]) -> Result<Opened<'a>, Refusal>
        ensures { outcome result ≡ with_values (compare_answer bytes.now) bytes.now }
    {
        compare_answer(bytes)?;
        Ok(Opened { bytes })
    }

    // The sample count.
    pub(crate) fn total(&self) -> u32
        ensures same { result ≡ total_in self.now }
        ensures some { 1 ≤ result }
        ensures few { result ≤ 14680064 }
    {
        get32(self.bytes, 4)
    }

    // The bytes of its file.
    pub(crate) fn file_bytes(&self) -> usize
        ensures { result ≡ file_bytes (total_in self.now) }
    {
        HEADER_BYTES + body_bytes(self.total() as usize)
    }
}
