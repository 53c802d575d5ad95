// The bytes of a .dsp file.
ghost use Rattle.std.specs.Prelude.{◌≡◌, ◌++◌, ◌+◌, ◌≤◌, length, replicate};
ghost use Rattle.std.proofs.lemmas.List.Edits.{sets};
ghost use Rattle.layout.specs.Fields.{be16, be32};
ghost use Rattle.image.specs.Reading.{total_in, rate_in};
ghost use Rattle.dsp.specs.inner.Asked.{Looping};
ghost use Rattle.dsp.specs.File.{nibble_count, file_bytes};
ghost use Rattle.dsp.specs.Export.{address_bytes, context_fields, header_bytes, exported};

use crate::fields::{HEADER_BYTES, nibble_count};
use crate::opened::Opened;
use block::join::copy;
use block::{FrameContext, sample_to_address};
use clip::contents::{put_coefficients, put_context};
use image::bodies::read_context;
use image::heading::{read_coefficients, read_shape, word_at};
use image::loops::{loop_context, read_loop};
use layout::Loop;
use layout::fields::{get32, put16, put32, zeros};
use layout::sizes::{bodies_place, body_bytes};

// The addresses of a loop, zeros without one: bytes 16 to 23.
fn put_addresses(header: &mut [u8; HEADER_BYTES], looped: Loop)
    requires { Looping looped }
    ensures { header.new ≡ sets header.old 16 (address_bytes looped) }
{
    if looped.present {
        put32(header, 16, sample_to_address(looped.start) as u32);
        put32(header, 20, sample_to_address(looped.end - 1) as u32);
    } else {
        zeros(header, 16, 8);
    }
}

// Flag, zero, addresses and the number 2: bytes 12 to 27.
// Stays: the flag beside the loop, since header_bytes has the image's own number of loops there.
fn put_looped(header: &mut [u8; HEADER_BYTES], flag: u16, looped: Loop)
    requires { Looping looped }
    ensures { header.new ≡ sets header.old 12 (be16 flag ++ (be16 0 ++ (address_bytes looped ++ be32 2))) }
{
    put16(header, 12, flag);
    put16(header, 14, 0);
    put_addresses(header, looped);
    put32(header, 24, 2);
}

// Gain, both contexts and zeros: bytes 60 to 95.
fn put_contexts(
    header: &mut [u8; HEADER_BYTES],
    gain: u16,
    first: FrameContext,
    looped: FrameContext,
)
    ensures { header.new ≡ sets header.old 60 (be16 gain ++ (context_fields first ++ (context_fields looped ++ replicate 22 0))) }
{
    put16(header, 60, gain);
    put_context(header, 62, first);
    put_context(header, 68, looped);
    zeros(header, 74, 22);
}

impl<'a> Opened<'a> {
    // The counts and the rate: bytes 0 to 11.
    fn put_counts(&self, header: &mut [u8; HEADER_BYTES])
        ensures { header.new ≡ sets header.old 0 (be32 (total_in self.now) ++ (be32 (nibble_count (total_in self.now)) ++ be32 (rate_in self.now))) }
    {
        let total = self.total();
        put32(header, 0, total);
        put32(header, 4, nibble_count(total));
        put32(header, 8, get32(self.bytes, 8));
    }

    // The header of its file.
    fn header(&self) -> [u8; HEADER_BYTES]
        ensures { result ≡ header_bytes self.now }
    {
        let image = self.bytes;
        let looped = read_loop(image);
        let context = loop_context(image, looped);
        let mut header = [0u8; HEADER_BYTES];
        self.put_counts(&mut header);
        put_looped(&mut header, word_at(image, 50), looped);
        put_coefficients(&mut header, 28, read_coefficients(image));
        put_contexts(
            &mut header,
            word_at(image, 48),
            read_context(image, 0),
            context,
        );
        header
    }

    // Its file: the header, and the bodies.
    pub(crate) fn put_file(&self, out: &mut [u8])
        requires { file_bytes (total_in self.now) ≤ length out.old }
        ensures { out.new ≡ sets out.old 0 (exported self.now) }
    {
        let shape = read_shape(self.bytes);
        let bodies = bodies_place(shape);
        let end = bodies + body_bytes(shape.total);
        copy(&self.header(), out, 0);
        copy(&self.bytes[bodies..end], out, HEADER_BYTES);
    }
}
