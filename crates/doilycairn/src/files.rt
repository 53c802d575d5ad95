// .dsp files: export of an image's clip, import of a file as an image, and the room that they need (change 6/13).
ghost use Rattle.std.specs.Prelude.{◌≡◌};
ghost use Rattle.dsp.specs.Answers.{written};
ghost use Rattle.dsp.specs.Export.{export_image};
ghost use Rattle.dsp.specs.Import.{room_for, import_file};
ghost use Rattle.whole.specs.Outcome.{effect};
ghost use Rattle.doilycairn.specs.Files.{written_answer, written_seen, dsp_size};

use crate::answers::{code_of, entry_of};
use layout::sizes::body_bytes;
use whole::MOST_SAMPLES;

// What export and import return: how many bytes. `entry` is the block whose entry is bad, with codes 20, 21 and 22, or that another history stands before, with 35; else 0.
// Stays: a code beside a value, since C takes no Result (include/doilycairn.h, "Answers").
#[repr(C)]
#[derive(Drop)]
pub struct Written {
    pub code: u32,
    pub entry: u32,
    pub bytes: u64,
}

// What an answer on files tells.
fn written_answer(answer: Result<u64, dsp::Refusal>) -> Written
    ensures { result ≡ written_answer (written answer) }
{
    Written {
        code: code_of(&answer),
        entry: entry_of(&answer),
        bytes: answer.unwrap_or(0),
    }
}

// Exports an image's clip to a .dsp file.
#[unsafe(no_mangle)]
pub extern "C" fn doilycairn_export_dsp(image: &[u8], out: &mut [u8]) -> Written
    ensures { effect result out.new ≡ written_seen (export_image image.now out.old) }
{
    written_answer(dsp::export(image, out))
}

// Imports a .dsp file as an image in blocks of the size given.
#[unsafe(no_mangle)]
pub extern "C" fn doilycairn_import_dsp(file: &[u8], block_size: u32, image: &mut [u8]) -> Written
    ensures { effect result image.new ≡ written_seen (import_file file.now block_size image.old) }
{
    written_answer(dsp::import(file, block_size, image))
}

// The bytes of the image that import would write, or its refusal before the room is asked for.
#[unsafe(no_mangle)]
pub extern "C" fn doilycairn_dsp_image_size(file: &[u8], block_size: u32) -> Written
    ensures { result ≡ written_answer (room_for file.now block_size) }
{
    written_answer(dsp::room_for(file, block_size))
}

// The bytes of a clip's .dsp file; 0 where starting it is refused by 4.
#[tactic(auto, using(std::proofs::lemmas::Bool::Decides::nat_tests), unfolding(crate::specs::Files::dsp_size, dsp::specs::File::file_bytes))]
#[unsafe(no_mangle)]
pub extern "C" fn doilycairn_dsp_size(total: u32) -> u64
    ensures { result ≡ dsp_size total }
{
    if !(1..=MOST_SAMPLES).contains(&total) {
        return 0;
    }
    // Stays: 96 as a number, as file_bytes has it; HEADER_BYTES would be made public, through a private module, for this one line.
    96 + body_bytes(total as usize) as u64
}
