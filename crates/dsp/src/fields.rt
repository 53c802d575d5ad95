// The fields of a .dsp file, and what they say.
ghost use Rattle.std.specs.Prelude.{◌≡◌, ◌≤◌};
ghost use Rattle.dsp.specs.File.{nibble_count, total_of, rate_of, flag_of, start_address_of, last_address_of, loop_of, coefficients_of, first_of, loop_context_of, bodies_of};
ghost use Rattle.dsp.specs.Import.{clip_of};

use block::{FrameContext, address_to_sample, sample_to_address};
use clip::starting::Start;
use image::bodies::context_at;
use image::heading::{read_coefficients, word_at};
use layout::Loop;
use layout::fields::{get16, get32};
use layout::sizes::cut_down;
use std::marker::Model;

// The bytes of the header.
pub(crate) const HEADER_BYTES: usize = 96;

// The sum of the block lengths of a clip.
pub(crate) fn nibble_count(total: u32) -> u32
    requires { (1 ≤ total) × (total ≤ 14680064) }
    ensures { result ≡ nibble_count total }
{
    (sample_to_address(total - 1) + 1) as u32
}

// A file that 25 and 4 do not refuse: it has its header, and the bodies that its count needs.
// A clause sees its bytes.
#[derive(Drop)]
pub(crate) struct File<'a> {
    pub(crate) bytes: &'a [u8],
}

impl<'a> Model for File<'a> {
    ghost use Rattle.std.specs.Prelude.{ℕ, List};

    ghost Value = { List ℕ };

    ghost view = { λ file. file.bytes.now };

    ghost use Rattle.dsp.specs.inner.Asked.{Whole};

    ghost invariant = { λ file. Whole file.bytes.now };
}

impl<'a> File<'a> {
    // The sample count.
    pub(crate) fn total(&self) -> u32
        ensures { result ≡ total_of self.now }
    {
        get32(self.bytes, 0)
    }

    // The rate.
    pub(crate) fn rate(&self) -> u32
        ensures { result ≡ rate_of self.now }
    {
        get32(self.bytes, 8)
    }

    // The loop flag.
    pub(crate) fn flag(&self) -> u32
        ensures { result ≡ flag_of self.now }
    {
        get16(self.bytes, 12)
    }

    // The address of the loop's first sample.
    pub(crate) fn start_address(&self) -> u32
        ensures { result ≡ start_address_of self.now }
    {
        get32(self.bytes, 16)
    }

    // The address of the loop's last sample.
    pub(crate) fn last_address(&self) -> u32
        ensures { result ≡ last_address_of self.now }
    {
        get32(self.bytes, 20)
    }

    // The sixteen coefficients.
    pub(crate) fn coefficients(&self) -> [i16; 16]
        ensures { result ≡ coefficients_of self.now }
    {
        read_coefficients(&self.bytes[12..])
    }

    // The context of the first frame.
    pub(crate) fn first(&self) -> FrameContext
        ensures { result ≡ first_of self.now }
    {
        context_at(self.bytes, 62)
    }

    // The context at the loop's start, as it is stored.
    pub(crate) fn loop_context(&self) -> FrameContext
        ensures { result ≡ loop_context_of self.now }
    {
        context_at(self.bytes, 68)
    }

    // The loop, or none.
    pub(crate) fn looped(&self) -> Loop
        ensures { result ≡ loop_of self.now }
    {
        if self.flag() != 1 {
            return Loop::default();
        }
        Loop {
            start: address_to_sample(self.start_address()) as u32,
            end: (address_to_sample(self.last_address()) + 1) as u32,
            present: true,
        }
    }

    // The bodies, and what stands behind them.
    pub(crate) fn bodies(&self) -> &'a [u8]
        ensures { result.now ≡ bodies_of self.now }
    {
        &self.bytes[HEADER_BYTES..]
    }

    // What the file says, at a block size that is cut down to a multiple of 8.
    pub(crate) fn clip(&self, size: u32) -> Start
        ensures { result ≡ clip_of self.now size }
    {
        Start {
            total: self.total(),
            rate: self.rate(),
            block: cut_down(size),
            gain: word_at(self.bytes, 60),
            coefficients: self.coefficients(),
            history: self.first().last_samples,
            looped: self.looped(),
        }
    }
}
