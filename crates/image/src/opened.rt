// An image that opens: what it says, read without testing it again.
ghost use Rattle.std.specs.Prelude.{◌≡◌, ◌<◌};
ghost use Rattle.layout.specs.Sizes.{bodies_place};
ghost use Rattle.image.specs.inner.Asked.{Opens, Found};
ghost use Rattle.image.specs.Reading.{total_in, block_in, shape_in, blocks_in, coefficients_in, head_in, context_in, loop_in, loop_context_in};
ghost use Rattle.image.specs.Bodies.{body_in};
ghost use Rattle.image.specs.Part.{per_block};
ghost use Rattle.image.specs.Playing.{read_entry};

use crate::Head;
use crate::bodies::{Entry, find_body, read_context, read_entry};
use crate::heading::{read_coefficients, read_head, read_shape};
use crate::loops::{loop_context, read_loop};
use block::FrameContext;
use layout::Loop;
use layout::fields::get32;
use layout::sizes::bodies_place;
use std::marker::Model;
use whole::{BYTES_PER_FRAME, SAMPLES_PER_FRAME};

// An image that opens, with its coefficients. A clause sees its bytes.
#[derive(Drop)]
pub(crate) struct Opened<'a> {
    bytes: &'a [u8],
    coefficients: [i16; 16],
}

impl<'a> Model for Opened<'a> {
    ghost use Rattle.std.specs.Prelude.{ℕ, List, ◌≡◌};

    ghost Value = { List ℕ };

    ghost view = { λ image. image.bytes.now };

    ghost use Rattle.image.specs.inner.Asked.{Opens};
    ghost use Rattle.image.specs.Reading.{coefficients_in};

    ghost invariant = { λ image. Opens image.bytes.now × (image.coefficients ≡ coefficients_in image.bytes.now) };
}

// Stays: opens stands in five of these, since methods of other modules see the bytes and not the invariant; Found is asked with each k, which no type of an image holds.
impl<'a> Opened<'a> {
    // An image that was found to open.
    pub(crate) fn of(bytes: &'a [u8]) -> Opened<'a>
        requires { Opens bytes.now }
        ensures { result ≡ bytes.now }
    {
        let coefficients = read_coefficients(bytes);
        Opened {
            bytes,
            coefficients,
        }
    }

    // The bytes.
    pub(crate) fn bytes(&self) -> &'a [u8]
        ensures { result.now ≡ self.now }
    {
        self.bytes
    }

    // The head's values.
    pub(crate) fn head(&self) -> Head
        ensures read { result ≡ head_in self.now }
        ensures opens { Opens self.now }
    {
        read_head(self.bytes)
    }

    // N.
    pub(crate) fn total(&self) -> u32
        ensures read { result ≡ total_in self.now }
        ensures opens { Opens self.now }
    {
        get32(self.bytes, 4)
    }

    // B.
    pub(crate) fn block(&self) -> usize
        ensures read { result ≡ block_in self.now }
        ensures opens { Opens self.now }
    {
        get32(self.bytes, 12) as usize
    }

    // Where the bodies begin.
    pub(crate) fn bodies(&self) -> usize
        ensures read { result ≡ bodies_place (shape_in self.now) }
        ensures opens { Opens self.now }
    {
        bodies_place(read_shape(self.bytes))
    }

    // K.
    pub(crate) fn blocks(&self) -> usize
        ensures { result ≡ blocks_in self.now }
    {
        get32(self.bytes, 52) as usize
    }

    // The samples of a whole block.
    pub(crate) fn per_block(&self) -> usize
        ensures { result ≡ per_block self.now }
    {
        SAMPLES_PER_FRAME * (get32(self.bytes, 12) as usize / BYTES_PER_FRAME)
    }

    // The coefficients.
    pub(crate) fn coefficients(&self) -> [i16; 16]
        ensures { result ≡ coefficients_in self.now }
    {
        self.coefficients
    }

    // Block k's entry.
    pub(crate) fn entry(&self, k: usize) -> Entry
        requires { Found self.now k }
        ensures { result ≡ read_entry self.now k }
    {
        read_entry(self.bytes, k)
    }

    // The context of block k's entry.
    pub(crate) fn context(&self, k: usize) -> FrameContext
        requires { k < blocks_in self.now }
        ensures { result ≡ context_in self.now k }
    {
        read_context(self.bytes, k)
    }

    // Block k's body.
    pub(crate) fn body(&self, k: usize) -> &'a [u8]
        requires { Found self.now k }
        ensures { result.now ≡ body_in self.now k }
    {
        let entry = read_entry(self.bytes, k);
        find_body(self.bytes, entry.offset as usize, entry.nibbles as usize)
    }

    // The loop, or none.
    pub(crate) fn looped(&self) -> Loop
        ensures read { result ≡ loop_in self.now }
        ensures opens { Opens self.now }
    {
        read_loop(self.bytes)
    }

    // The context at the loop's start.
    pub(crate) fn loop_context(&self, looped: Loop) -> FrameContext
        requires { looped ≡ loop_in self.now }
        ensures { result ≡ loop_context_in self.now }
    {
        loop_context(self.bytes, looped)
    }
}
