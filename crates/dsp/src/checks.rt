// The tests of export and import, in the documents' sequence.
ghost use Rattle.std.specs.Prelude.{◌≡◌, ◌-◌, eqb};
ghost use Rattle.std.specs.List.{list_all};
ghost use Rattle.whole.specs.Outcome.{with_values};
ghost use Rattle.image.specs.Reading.{blocks_in};
ghost use Rattle.dsp.specs.Answers.{outcome};
ghost use Rattle.dsp.specs.Export.{histories_answer, export_answer};
ghost use Rattle.dsp.specs.inner.Asked.{numbers_ok, whole_answer};
ghost use Rattle.dsp.specs.Import.{needed, long_enough, of_sample, loop_fields_ok, no_loop_fields, fields_ok, file_answer};

use crate::Refusal;
use crate::fields::{File, HEADER_BYTES, nibble_count};
use crate::opened::Opened;
use block::address_to_sample;
use block::coefficients::lowest_pair;
use block::part::context_after;
use image::bodies::{find_body, read_context, read_entry};
use image::heading::read_coefficients;
use layout::fields::{get16, get32};
use layout::{LEAST_BLOCK, MOST_BLOCK};
use whole::{BYTES_PER_FRAME, MOST_SAMPLES, SAMPLES_PER_FRAME};

// ---- import

// The body bytes that a count needs; 0 needs none.
// Stays: `layout::sizes::body_bytes` promises `most`, which holds of the counts of clips alone; 25 is asked of every count, before 4.
fn needed(total: u32) -> usize
    ensures { result ≡ needed total }
{
    if total == 0 {
        return 0;
    }
    let n = total as usize;
    let before = n.div_ceil(SAMPLES_PER_FRAME) - 1;
    BYTES_PER_FRAME * before + 1 + (n - SAMPLES_PER_FRAME * before).div_ceil(2)
}

// Whether the file has its header and the body bytes that its count needs.
fn long_enough(file: &[u8]) -> bool
    ensures { result ≡ long_enough file.now }
{
    file.len() >= HEADER_BYTES && HEADER_BYTES + needed(get32(file, 0)) <= file.len()
}

// Whether an address is that of one of N samples.
fn of_sample(total: u32, address: u32) -> bool
    ensures { result ≡ of_sample total address }
{
    let in_header = address % 16 < 2;
    !in_header && address_to_sample(address) < u64::from(total)
}

// Whether all bytes are zeros.
fn all_zeros(bytes: &[u8]) -> bool
    ensures { result ≡ list_all (λ byte. eqb byte 0) bytes.now }
{
    bytes.iter().all(|byte| *byte == 0)
}

impl<'a> File<'a> {
    // Whether the fields of a loop are the clip's.
    fn loop_fields_ok(&self) -> bool
        ensures { result ≡ loop_fields_ok self.now }
    {
        let total = self.total();
        let start = self.start_address();
        let last = self.last_address();
        of_sample(total, start)
            && of_sample(total, last)
            && start <= last
            && get16(self.bytes, 68)
                == u32::from(self.bodies()[BYTES_PER_FRAME * (start as usize / 16)])
    }

    // Whether the fields of a loop are zeros.
    fn no_loop_fields(&self) -> bool
        ensures { result ≡ no_loop_fields self.now }
    {
        all_zeros(&self.bytes[16..24]) && all_zeros(&self.bytes[68..74])
    }

    // Whether the nibble count, the flag, the zero after it and the number 2 are as listed.
    fn numbers_ok(&self) -> bool
        ensures { result ≡ numbers_ok self.now }
    {
        get32(self.bytes, 4) == nibble_count(self.total())
            && self.flag() <= 1
            && get16(self.bytes, 14) == 0
            && get32(self.bytes, 24) == 2
    }

    // Whether every field is as listed: code 26 is not to be given.
    fn fields_ok(&self) -> bool
        ensures { result ≡ fields_ok self.now }
    {
        self.numbers_ok()
            && all_zeros(&self.bytes[74..96])
            && get16(self.bytes, 62) == u32::from(self.bodies()[0])
            && if self.flag() == 1 {
                self.loop_fields_ok()
            } else {
                self.no_loop_fields()
            }
    }

    // The file, by codes 25 and 4.
    fn read(bytes: &'a [u8]) -> Result<File<'a>, Refusal>
        ensures { outcome result ≡ with_values (whole_answer bytes.now) bytes.now }
    {
        if !long_enough(bytes) {
            return Err(Refusal::FileTooShort);
        }
        if !(1..=MOST_SAMPLES).contains(&get32(bytes, 0)) {
            return Err(Refusal::BadSampleCount);
        }
        Ok(File { bytes })
    }
}

// The file that import takes, by codes 25, 4, 5, 6, 26 and 13.
pub(crate) fn accept(bytes: &[u8], size: u32) -> Result<File, Refusal>
    ensures { outcome result ≡ with_values (file_answer bytes.now size) bytes.now }
{
    let file = File::read(bytes)?;
    if file.rate() == 0 {
        return Err(Refusal::RateZero);
    }
    if !(LEAST_BLOCK..=MOST_BLOCK).contains(&size) {
        return Err(Refusal::BadBlockSize);
    }
    if !file.fields_ok() {
        return Err(Refusal::BadField);
    }
    if lowest_pair(file.coefficients()) {
        return Err(Refusal::LowestPair);
    }
    Ok(file)
}

// ---- export

impl<'a> Opened<'a> {
    // Code 35: of the first block after the first whose history is not what the block before leaves.
    fn histories_answer(&self) -> Result<(), Refusal>
        ensures { outcome result ≡ histories_answer self.now 0 (blocks_in self.now - 1) }
    {
        let image = self.bytes;
        let coefficients = read_coefficients(image);
        for j in 0..get32(image, 52) as usize - 1 {
            let entry = read_entry(image, j);
            let nibbles = entry.nibbles as usize;
            let body = find_body(image, entry.offset as usize, nibbles);
            let after = context_after(body, nibbles, coefficients, entry.context);
            let next = read_context(image, j + 1);
            if after.last_samples != next.last_samples {
                return Err(Refusal::OtherHistory((j + 1) as u32));
            }
        }
        Ok(())
    }
}

// The image that export takes, by codes 15, 20, 21, 22, 24, 13, 35 and 14.
pub(crate) fn exportable(bytes: &[u8], room: usize) -> Result<Opened, Refusal>
    ensures { outcome result ≡ with_values (export_answer bytes.now room) bytes.now }
{
    let image = Opened::read(bytes)?;
    image.histories_answer()?;
    if room < image.file_bytes() {
        return Err(Refusal::OutputTooShort);
    }
    Ok(image)
}
