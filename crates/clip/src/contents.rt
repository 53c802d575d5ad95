// The head and the contents of an image.
ghost use Rattle.std.specs.Prelude.{◌≡◌, [], ◌∷◌, ◌++◌, ◌+◌, ◌*◌, ◌≤◌, length};
ghost use Rattle.std.proofs.lemmas.List.Edits.{sets};
ghost use Rattle.layout.specs.Limits.{Limits};
ghost use Rattle.layout.specs.Fields.{be16, be32, mark, no_mark};
ghost use Rattle.layout.specs.Sizes.{loop_count, block_count, bodies_place, image_size};
ghost use Rattle.clip.specs.Image.{no_context, context_bytes, coefficient_bytes, start_shape, head_bytes, table_bytes, loop_bytes, fresh_bytes};

use crate::starting::Start;
use block::FrameContext;
use layout::fields::{put16, put32, zeros};
use layout::sizes::{block_count, block_length, bodies_place, body_bytes, entry_place};
use layout::{ENTRY_BYTES, Loop, MARK, Shape};

// The mark, at the image's start. It is internal: crate dsp calls it.
pub fn put_mark(image: &mut [u8])
    requires { 4 ≤ length image.old }
    ensures { image.new ≡ sets image.old 0 mark }
{
    image[..4].copy_from_slice(&MARK);
}

// A block's context: its first header byte, and the history before it. It is internal: crate dsp calls it.
// Stays: the image, a place and the context, here and below: a buffer and a place are what every put takes, and a struct of them is made only to be taken apart.
pub fn put_context(image: &mut [u8], at: usize, context: FrameContext)
    requires { at + 6 ≤ length image.old }
    ensures { image.new ≡ sets image.old at (context_bytes context.predictor_and_scale context.last_samples) }
{
    put16(image, at, context.predictor_and_scale);
    put16(image, at + 2, context.last_samples.newest.cast_unsigned());
    put16(image, at + 4, context.last_samples.older.cast_unsigned());
}

// The coefficients, two bytes each. It is internal: crate dsp calls it.
pub fn put_coefficients(image: &mut [u8], at: usize, coefficients: [i16; 16])
    requires { at + 32 ≤ length image.old }
    ensures { image.new ≡ sets image.old at (coefficient_bytes coefficients) }
{
    for (i, coefficient) in coefficients.iter().enumerate() {
        put16(image, at + 2 * i, coefficient.cast_unsigned());
    }
}

// An entry: where a block's body begins and how long it is, or where a loop starts and ends; and the context there. It is internal: crate dsp calls it.
pub fn put_entry(image: &mut [u8], at: usize, first: u32, second: u32, context: FrameContext)
    requires { at + 16 ≤ length image.old }
    ensures { image.new ≡ sets image.old at (be32 first ++ (be32 second ++ (context_bytes context.predictor_and_scale context.last_samples ++ (0 ∷ 0 ∷ [])))) }
{
    put32(image, at, first);
    put32(image, at + 4, second);
    put_context(image, at + 8, context);
    zeros(image, at + 14, 2);
}

// The contents: an entry with no context for each block.
// Stays: dsp's put_contents writes entries too, but each context comes of the one before; as a closure it would say in its contract what put_contents says.
fn put_table(image: &mut [u8], shape: Shape)
    requires { Limits shape × (bodies_place shape ≤ length image.old) }
    ensures { image.new ≡ sets image.old 56 (table_bytes (λ j. no_context) shape 0 (block_count shape)) }
{
    let bodies = bodies_place(shape);
    for k in 0..block_count(shape) {
        let offset = bodies + k * shape.block;
        let nibbles = block_length(shape, k);
        put_entry(
            image,
            entry_place(k),
            offset as u32,
            nibbles as u32,
            FrameContext::default(),
        );
    }
}

// N, rate and B.
fn put_numbers(image: &mut [u8], g: Start)
    requires { 16 ≤ length image.old }
    ensures { image.new ≡ sets image.old 4 (be32 g.total ++ (be32 g.rate ++ be32 g.block)) }
{
    put32(image, 4, g.total);
    put32(image, 8, g.rate);
    put32(image, 12, g.block);
}

// Gain, the count of loops and K.
fn put_rest(image: &mut [u8], g: Start, blocks: u32)
    requires { 56 ≤ length image.old }
    ensures { image.new ≡ sets image.old 48 (be16 g.gain ++ (be16 (loop_count g.looped) ++ be32 blocks)) }
{
    put16(image, 48, g.gain);
    put16(image, 50, u16::from(g.looped.present));
    put32(image, 52, blocks);
}

// The head with no mark. It is internal: crate dsp calls it.
pub fn put_head(image: &mut [u8], g: Start, blocks: u32)
    requires { (56 ≤ length image.old) × (blocks ≡ block_count (start_shape g)) }
    ensures { image.new ≡ sets image.old 0 (head_bytes no_mark g) }
{
    zeros(image, 0, 4);
    put_numbers(image, g);
    put_coefficients(image, 16, g.coefficients);
    put_rest(image, g, blocks);
}

// All the bytes of a clip's start.
pub(crate) fn put_fresh(image: &mut [u8], g: Start)
    requires { Limits (start_shape g) × (image_size (start_shape g) ≤ length image.old) }
    ensures { image.new ≡ sets image.old 0 (fresh_bytes g) }
{
    let shape = g.shape();
    let blocks = block_count(shape);
    put_head(image, g, blocks as u32);
    put_table(image, shape);
    zeros(
        image,
        entry_place(blocks),
        ENTRY_BYTES * shape.extra + body_bytes(shape.total),
    );
}

// The entry that a loop adds. It is internal: crate dsp calls it.
// Stays: the loop and the context at its start are two, as C has them (doilycairn_encoder, doilycairn_opening).
pub fn put_loop(image: &mut [u8], at: usize, looped: Loop, context: FrameContext)
    requires { at + 16 * loop_count looped ≤ length image.old }
    ensures { image.new ≡ sets image.old at (loop_bytes looped context) }
{
    if looped.present {
        put_entry(image, at, looped.start, looped.end, context);
    }
}
