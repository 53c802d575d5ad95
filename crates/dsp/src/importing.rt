// The image of a .dsp file.
ghost use Rattle.std.specs.Prelude.{◌≡◌, ◌≤◌, length};
ghost use Rattle.std.proofs.lemmas.List.Edits.{sets};
ghost use Rattle.layout.specs.Fields.{mark};
ghost use Rattle.layout.specs.Sizes.{block_count};
ghost use Rattle.clip.specs.Image.{start_shape, head_bytes, table_bytes};
ghost use Rattle.dsp.specs.inner.Asked.{Imports, Tabled};
ghost use Rattle.dsp.specs.Import.{context_before, laid_out};

use crate::fields::File;
use block::join::copy;
use block::part::context_after;
use clip::contents::{put_entry, put_head, put_loop, put_mark};
use clip::starting::Start;
use layout::Shape;
use layout::sizes::{block_count, block_length, bodies_place, body_bytes, entry_place};

// The head with its mark.
fn put_marked(image: &mut [u8], given: Start, blocks: u32)
    requires { (56 ≤ length image.old) × (blocks ≡ block_count (start_shape given)) }
    ensures { image.new ≡ sets image.old 0 (head_bytes mark given) }
{
    put_head(image, given, blocks);
    put_mark(image);
}

impl<'a> File<'a> {
    // The contents: each block's entry, its context worked out by playing the blocks before it.
    // Stays: clip's put_table writes the same entries with no context; its contexts as a closure would say in its contract what this says.
    fn put_contents(&self, shape: Shape, image: &mut [u8])
        requires { Tabled self.now shape (length image.old) }
        ensures { image.new ≡ sets image.old 56 (table_bytes (context_before self.now shape.block) shape 0 (block_count shape)) }
    {
        let bodies = bodies_place(shape);
        let coefficients = self.coefficients();
        let mut context = self.first();
        for k in 0..block_count(shape) {
            let place = k * shape.block;
            let nibbles = block_length(shape, k);
            let body = &self.bodies()[place..];
            let current = context.with_header(body[0]);
            put_entry(
                image,
                entry_place(k),
                (bodies + place) as u32,
                nibbles as u32,
                current,
            );
            context = context_after(body, nibbles, coefficients, current);
        }
    }

    // Its image, where import accepts it.
    pub(crate) fn put_image(&self, given: Start, image: &mut [u8])
        requires { Imports self.now given (length image.old) }
        ensures { image.new ≡ sets image.old 0 (laid_out self.now given) }
    {
        let shape = given.shape();
        let blocks = block_count(shape);
        put_marked(image, given, blocks as u32);
        self.put_contents(shape, image);
        put_loop(
            image,
            entry_place(blocks),
            given.looped,
            self.loop_context(),
        );
        copy(
            &self.bodies()[..body_bytes(shape.total)],
            image,
            bodies_place(shape),
        );
    }
}
