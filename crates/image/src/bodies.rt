// The entries of an image's blocks, and their bodies.
ghost use Rattle.std.specs.Prelude.{◌≡◌, ◌+◌, ◌/◌, ◌≤◌, length, take, drop};
ghost use Rattle.block.specs.Context.{history_with, context_with};
ghost use Rattle.layout.specs.Fields.{at16};
ghost use Rattle.layout.specs.Sizes.{entry_place};
ghost use Rattle.image.specs.inner.Asked.{Found};
ghost use Rattle.image.specs.Reading.{signed_at, context_in};
ghost use Rattle.image.specs.Playing.{read_entry};

use crate::heading::{signed_at, word_at};
use block::FrameContext;
use layout::fields::get32;
use layout::sizes::entry_place;
use whole::History;

// What a block's entry says: where its body begins, the body's length in nibbles, and the context that it is played from.
#[derive(Clone, Copy)]
pub struct Entry {
    pub offset: u32,
    pub nibbles: u32,
    pub context: FrameContext,
}

// The context that six bytes from a place on are: a header byte as two, the newest and the older history sample. It is internal: crate dsp calls it.
pub fn context_at(bytes: &[u8], at: usize) -> FrameContext
    requires { at + 6 ≤ length bytes.now }
    ensures { result ≡ context_with (at16 bytes.now at) (history_with (signed_at bytes.now (at + 2)) (signed_at bytes.now (at + 4))) }
{
    FrameContext {
        predictor_and_scale: word_at(bytes, at),
        last_samples: History {
            newest: signed_at(bytes, at + 2),
            older: signed_at(bytes, at + 4),
        },
    }
}

// The context of entry k: a block's, or after those the loop's. It is internal: crate dsp calls it.
pub fn read_context(image: &[u8], k: usize) -> FrameContext
    requires { (k ≤ 1048576) × (entry_place k + 16 ≤ length image.now) }
    ensures { result ≡ context_in image.now k }
{
    context_at(image, entry_place(k) + 8)
}

// Block k's entry. It is internal: crate doilycairn calls it.
pub fn read_entry(image: &[u8], k: usize) -> Entry
    requires { Found image.now k }
    ensures { result ≡ read_entry image.now k }
{
    let at = entry_place(k);
    Entry {
        offset: get32(image, at),
        nibbles: get32(image, at + 4),
        context: read_context(image, k),
    }
}

// The bytes from an offset on that hold so many nibbles. It is internal: crate dsp calls it.
pub fn find_body<'a>(image: &'a [u8], offset: usize, nibbles: usize) -> &'a [u8]
    requires { offset + (nibbles + 1) / 2 ≤ length image.now }
    ensures result_value { result.now ≡ take ((nibbles + 1) / 2) (drop offset image.now) }
    ensures ref_ptr_value { result.ref_ptr ≡ (image.entry.ref_ptr.0, image.entry.ref_ptr.1 + offset) }
{
    &image[offset..offset + nibbles.div_ceil(2)]
}
