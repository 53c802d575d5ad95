// Playing a run of an image's samples, from one of them on.
ghost use Rattle.std.specs.Prelude.{◌≡◌, ◌+◌, ◌-◌, ◌*◌, ◌≤◌, ◌<◌, length, take};
ghost use Rattle.std.proofs.lemmas.List.Edits.{sets};
ghost use Rattle.image.specs.inner.Asked.{SomeOf, Later, Run};
ghost use Rattle.image.specs.inner.Runs.{context_at_sample, part_of};
ghost use Rattle.image.specs.Looping.{rest_in, samples_on};
ghost use Rattle.image.specs.Part.{per_block, touched, part_counts};
ghost use Rattle.image.specs.Reading.{total_in, blocks_in};
ghost use Rattle.image.specs.Sameness.{block_samples, samples_from};
ghost use Rattle.whole.specs.Outcome.{accepted, effect};

use crate::Part;
use crate::opened::Opened;
use block::part::{context_after, play_on};
use block::{FrameContext, sample_to_address};

impl<'a> Opened<'a> {
    // `count` samples of block k from its sample `from` on to the output, under the context given.
    // Stays: count beside out, here and below, since the clauses say what the rest of a longer output holds; a slice made at each call is no shorter.
    fn play_in_block(
        &self,
        k: usize,
        from: usize,
        count: usize,
        context: FrameContext,
        out: &mut [i16],
    )
        requires { SomeOf self.now k from count × (count ≤ length out.old) }
        ensures { out.new ≡ sets out.old 0 (take count (rest_in self.now k from context)) }
    {
        let body = self.body(k);
        let address = sample_to_address(from as u32) as usize;
        let last = sample_to_address((from + count - 1) as u32) as usize;
        play_on(body, address, last + 1, self.coefficients(), context, out);
    }

    // The first `count` samples of block k to the output, from its own context.
    fn play_first(&self, k: usize, count: usize, out: &mut [i16])
        requires { SomeOf self.now k 0 count × (count ≤ length out.old) }
        ensures { out.new ≡ sets out.old 0 (take count (block_samples self.now k)) }
    {
        let entry = self.entry(k);
        self.play_in_block(k, 0, count, entry.context, out);
    }

    // The context at sample `first` of the clip: what its block's samples before it leave.
    fn context_at_sample(&self, first: usize) -> FrameContext
        requires { Run self.now first 1 }
        ensures { result ≡ context_at_sample self.now first }
    {
        let per = self.per_block();
        let k = first / per;
        let entry = self.entry(k);
        let address = sample_to_address((first % per) as u32) as usize;
        context_after(self.body(k), address, self.coefficients(), entry.context)
    }

    // `count` samples from block k's first on to the output, each block from its own context. Answers the blocks visited.
    fn play_later_blocks(&self, k: usize, count: usize, out: &mut [i16]) -> usize
        requires { Later self.now k count × (count ≤ length out.old) }
        ensures visited { (count ≤ result * per_block self.now) × (result * per_block self.now < count + per_block self.now) }
        ensures stored { out.new ≡ sets out.old 0 (take count (samples_from self.now k (blocks_in self.now - k))) }
    {
        let per = self.per_block();
        let blocks = count.div_ceil(per);
        for j in 0..blocks {
            let done = j * per;
            let here = per.min(count - done);
            self.play_first(k + j, here, &mut out[done..]);
        }
        blocks
    }

    // `count` samples from sample `first` of the clip on to the output: its block's under the context given, then the later blocks'. Answers the blocks visited.
    pub(crate) fn play_run(
        &self,
        first: usize,
        count: usize,
        context: FrameContext,
        out: &mut [i16],
    ) -> usize
        requires { Run self.now first count × (count ≤ length out.old) }
        ensures visited { result ≡ touched (per_block self.now) first count (blocks_in self.now) }
        ensures stored { out.new ≡ sets out.old 0 (take count (samples_on self.now first context)) }
    {
        let per = self.per_block();
        let k = first / per;
        let from = first % per;
        let done = (per - from).min(count);
        self.play_in_block(k, from, done, context, out);
        let later = self.play_later_blocks(k + 1, count - done, &mut out[done..]);
        1 + later
    }

    // Plays on from sample `first`, which the image has.
    pub(crate) fn play_from(&self, first: usize, out: &mut [i16]) -> Part
        requires { first < total_in self.now }
        ensures { effect (accepted (part_counts result)) out.new ≡ part_of self.now first out.old }
    {
        let left = self.total() as usize - first;
        let count = out.len().min(left);
        if count == 0 {
            // Stays: not the derived default, so that the edit `empty_output_touches_one` turns a number that stands here.
            return Part {
                samples: 0,
                blocks: 0,
            };
        }
        let context = self.context_at_sample(first);
        let blocks = self.play_run(first, count, context, out);
        Part {
            samples: count as u64,
            blocks: blocks as u32,
        }
    }
}
