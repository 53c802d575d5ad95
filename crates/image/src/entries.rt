// The contents entries of an image.
ghost use Rattle.std.specs.Prelude.{◌≡◌, ◌≤◌, ◌<◌, length};
ghost use Rattle.layout.specs.Limits.{Limits};
ghost use Rattle.layout.specs.Sizes.{block_count, block_length, bodies_place, image_size};
ghost use Rattle.image.specs.Opening.{outcome, entry_answer, entries_answer};

use crate::Refusal;
use layout::Shape;
use layout::fields::{get16, get32};
use layout::sizes::{block_count, block_length, bodies_place, entry_place};

// Codes 20, 21 and 22 of block j's entry: its offset; its length and zero bytes; its predictor-and-scale.
fn entry_answer(
    image: &[u8],
    shape: Shape,
    bodies: usize,
    j: usize,
    nibbles: usize,
) -> Result<(), Refusal>
    requires { Limits shape × (bodies ≡ bodies_place shape) × (j < block_count shape) × (image_size shape ≤ length image.now) × (nibbles ≡ block_length shape j) }
    ensures { outcome result ≡ entry_answer image.now shape j }
{
    let at = entry_place(j);
    let offset = bodies + j * shape.block;
    let block = j as u32;
    if get32(image, at) as usize != offset {
        return Err(Refusal::BadOffset(block));
    }
    if get32(image, at + 4) as usize != nibbles {
        return Err(Refusal::BadLength(block));
    }
    if get16(image, at + 14) != 0 {
        return Err(Refusal::BadLength(block));
    }
    let told = get16(image, at + 8);
    let header = u32::from(image[offset]);
    if told != header {
        return Err(Refusal::BadHeader(block));
    }
    Ok(())
}

// Codes 20, 21 and 22 of the first entry that has one. Every block but the last is as long as the first.
#[tactic(auto, using(layout::proofs::SizeLaws::blocks_some))]
pub(crate) fn entries_answer(image: &[u8], shape: Shape) -> Result<(), Refusal>
    requires { Limits shape × (image_size shape ≤ length image.now) }
    ensures { outcome result ≡ entries_answer image.now shape 0 (block_count shape) }
{
    let blocks = block_count(shape);
    let last = blocks - 1;
    let bodies = bodies_place(shape);
    let nibbles = block_length(shape, 0);
    let mut first = last;
    // Stays: no `?` in the loop, which with several ways out takes up to twice as long (docs/PROVING.md, "Fast forms").
    for j in 0..last {
        if entry_answer(image, shape, bodies, j, nibbles).is_err() {
            first = j;
            break;
        }
    }
    let rest = block_length(shape, first);
    entry_answer(image, shape, bodies, first, rest)
}
