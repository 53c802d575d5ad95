// The head of an image.
// Stays: 56 bytes are asked of four of these and no type says it: dsp reads a file by read_coefficients, and mark_ok and read_shape come before an image is known to open.
ghost use Rattle.std.specs.Prelude.{◌≡◌, ◌+◌, ◌≤◌, length};
ghost use Rattle.layout.specs.Fields.{at16};
ghost use Rattle.image.specs.Reading.{signed_at, coefficients_in, head_in, shape_in};
ghost use Rattle.image.specs.Opening.{mark_ok, numbers_fit, head_ok};

use crate::Head;
use layout::fields::{get16, get32};
use layout::limits::numbers_ok;
use layout::sizes::{block_count, image_size, shape_of};
use layout::{HEAD_BYTES, MARK, Shape};

// Whether the image starts with the mark.
fn mark_ok(image: &[u8]) -> bool
    requires { 56 ≤ length image.now }
    ensures { result ≡ mark_ok image.now }
{
    // Stays: a local, since the edit zero_mark_accepted turns this line.
    let mark = MARK;
    image.starts_with(&mark)
}

// Whether N, rate, B, K and the number of loops are right, and an image of `len` bytes has all of its bytes.
#[tactic(auto, using(std::proofs::lemmas::Bool::Decides::nat_tests), unfolding(crate::specs::Opening::numbers_fit))]
fn numbers_fit(total: u32, rate: u32, block: u32, blocks: u32, loops: u32, len: usize) -> bool
    ensures { result ≡ numbers_fit total rate block blocks loops len }
{
    if !numbers_ok(0, total, block, rate) || loops > 1 {
        return false;
    }
    let shape = shape_of(total, block, loops);
    blocks as usize == block_count(shape) && image_size(shape) <= len
}

// Code 15.
#[tactic(auto, using(std::proofs::lemmas::Bool::Decides::nat_tests), unfolding(crate::specs::Opening::head_ok, crate::specs::Reading::total_in, crate::specs::Reading::rate_in, crate::specs::Reading::block_in, crate::specs::Reading::blocks_in, crate::specs::Reading::loops_in))]
pub(crate) fn head_ok(image: &[u8]) -> bool
    ensures { result ≡ head_ok image.now }
{
    HEAD_BYTES <= image.len()
        && mark_ok(image)
        && numbers_fit(
            get32(image, 4),
            get32(image, 8),
            get32(image, 12),
            get32(image, 52),
            get16(image, 50),
            image.len(),
        )
}

// The shape that N, B and the number of loops say. It is internal: crate dsp calls it.
pub fn read_shape(image: &[u8]) -> Shape
    requires { 56 ≤ length image.now }
    ensures { result ≡ shape_in image.now }
{
    shape_of(get32(image, 4), get32(image, 12), get16(image, 50))
}

// The number of 16 bits that two bytes are. It is internal: crate dsp calls it.
// Stays: get16 gives 32 bits, as its other callers compare numbers of 32 bits; docs/changes/06-dsp-files.md names word_at.
pub fn word_at(image: &[u8], at: usize) -> u16
    requires { at + 2 ≤ length image.now }
    ensures { result ≡ at16 image.now at }
{
    get16(image, at) as u16
}

// The signed number that two bytes are. It is internal.
pub fn signed_at(image: &[u8], at: usize) -> i16
    requires { at + 2 ≤ length image.now }
    ensures { result ≡ signed_at image.now at }
{
    word_at(image, at).cast_signed()
}

// The sixteen coefficients. It is internal: crate dsp calls it.
pub fn read_coefficients(image: &[u8]) -> [i16; 16]
    requires { 56 ≤ length image.now }
    ensures { result ≡ coefficients_in image.now }
{
    let mut coefficients = [0i16; 16];
    for (i, c) in coefficients.iter_mut().enumerate() {
        *c = signed_at(image, 16 + 2 * i);
    }
    coefficients
}

// The head's values.
#[tactic(auto, unfolding(crate::specs::Reading::head_in, crate::specs::Reading::total_in, crate::specs::Reading::rate_in, crate::specs::Reading::block_in, crate::specs::Reading::gain_in, crate::specs::Reading::blocks_in))]
pub(crate) fn read_head(image: &[u8]) -> Head
    requires { 56 ≤ length image.now }
    ensures { result ≡ head_in image.now }
{
    Head {
        total: get32(image, 4),
        rate: get32(image, 8),
        block: get32(image, 12),
        gain: word_at(image, 48),
        coefficients: read_coefficients(image),
        blocks: get32(image, 52),
    }
}
