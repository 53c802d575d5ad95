// .dsp files: export of an image's clip, import of a file as an image.
#![tactic(auto)]

ghost use Rattle.std.specs.Prelude.{◌≡◌};
ghost use Rattle.whole.specs.Outcome.{effect};
ghost use Rattle.dsp.specs.declared.Refusal.TheVariants.{OfImage};
ghost use Rattle.dsp.specs.Answers.{code, bad_block, written};
ghost use Rattle.dsp.specs.Export.{export_image};
ghost use Rattle.dsp.specs.Import.{room_for, import_file};

mod checks;
mod exporting;
mod fields;
mod importing;
mod opened;

use checks::{accept, exportable};
use layout::sizes::image_size;
use whole::Reason;

// Why a call is refused; one of them names the block that another history stands before, and an image's may name the block whose entry is bad.
#[derive(Clone, Copy, Debug, PartialEq, Eq)]
pub enum Refusal {
    BadSampleCount,
    RateZero,
    BadBlockSize,
    ImageTooShort,
    LowestPair,
    OutputTooShort,
    FileTooShort,
    BadField,
    OtherHistory(u32),
    OfImage(image::Refusal),
}

impl From<image::Refusal> for Refusal {
    ghost from_gives = { λ why refusal. refusal ≡ OfImage why };

    fn from(refused: image::Refusal) -> Refusal {
        Refusal::OfImage(refused)
    }
}

impl Reason for Refusal {
    ghost number = { code };

    ghost named = { bad_block };

    fn code(self) -> u32 {
        match self {
            Refusal::BadSampleCount => 4,
            Refusal::RateZero => 5,
            Refusal::BadBlockSize => 6,
            Refusal::ImageTooShort => 8,
            Refusal::LowestPair => 13,
            Refusal::OutputTooShort => 14,
            Refusal::FileTooShort => 25,
            Refusal::BadField => 26,
            Refusal::OtherHistory(_) => 35,
            Refusal::OfImage(why) => why.code(),
        }
    }

    fn bad_block(self) -> u32 {
        match self {
            Refusal::OtherHistory(j) => j,
            Refusal::OfImage(why) => why.bad_block(),
            _ => 0,
        }
    }
}

// Exports an image's clip: the .dsp file to the output; how many bytes.
pub fn export(image: &[u8], out: &mut [u8]) -> Result<u64, Refusal>
    ensures { effect (written result) out.new ≡ export_image image.now out.old }
{
    let taken = exportable(image, out.len())?;
    taken.put_file(out);
    Ok(taken.file_bytes() as u64)
}

// How much room import needs for the image of a file, or its refusal before the room is asked for.
pub fn room_for(file: &[u8], size: u32) -> Result<u64, Refusal>
    ensures { written result ≡ room_for file.now size }
{
    let accepted = accept(file, size)?;
    Ok(image_size(accepted.clip(size).shape()) as u64)
}

// Imports a .dsp file: the image, in blocks of the size given, to the buffer; how many bytes.
pub fn import(file: &[u8], size: u32, image: &mut [u8]) -> Result<u64, Refusal>
    ensures { effect (written result) image.new ≡ import_file file.now size image.old }
{
    let accepted = accept(file, size)?;
    let given = accepted.clip(size);
    let needed = image_size(given.shape());
    let short = image.len() < needed;
    if short {
        return Err(Refusal::ImageTooShort);
    }
    accepted.put_image(given, image);
    Ok(needed as u64)
}
