// Playing a block of an image, and all of them in turn.
ghost use Rattle.std.specs.Prelude.{◌≡◌, length};
ghost use Rattle.block.specs.Address.{address_to_sample};
ghost use Rattle.block.specs.Context.{new_context};
ghost use Rattle.block.specs.Frame.{playing};
ghost use Rattle.block.specs.Play.{play_into, final_context};
ghost use Rattle.image.specs.inner.Asked.{Found, Playable, AllPlayable};
ghost use Rattle.image.specs.Reading.{total_in, coefficients_in, length_in, context_in};
ghost use Rattle.image.specs.Bodies.{body_in};
ghost use Rattle.image.specs.Playing.{read_entry, room_answer, play_outcome};
ghost use Rattle.image.specs.inner.Played.{play_by, play_all_by};
ghost use Rattle.image.specs.WholeImage.{all_into};
ghost use Rattle.whole.specs.Outcome.{effect};

use crate::Refusal;
use crate::bodies::Entry;
use crate::checks::room_answer;
use crate::opened::Opened;
use block::play::play_into;
use block::{FrameContext, Playback, address_to_sample};

impl<'a> Opened<'a> {
    // Block k's samples to the output, with its entry that was read: the context after them.
    fn play_block(&self, k: usize, entry: Entry, out: &mut [i16]) -> FrameContext
        requires { Playable self.now k (length out.old) × (entry ≡ read_entry self.now k) }
        ensures { playing result out.new ≡ play_into (body_in self.now k) (coefficients_in self.now) (length_in self.now k) (context_in self.now k) out.old }
    {
        let body = self.body(k);
        play_into(
            body,
            entry.nibbles as usize,
            self.coefficients(),
            entry.context,
            out,
        )
    }

    // Plays block k, which the image has.
    pub(crate) fn play(&self, k: usize, out: &mut [i16]) -> Result<Playback, Refusal>
        requires { Found self.now k }
        ensures { effect (play_outcome result) (playing (final_context result new_context) out.new) ≡ play_by (room_answer (coefficients_in self.now) (address_to_sample (length_in self.now k)) (length out.old)) self.now k out.old }
    {
        let entry = self.entry(k);
        let samples = address_to_sample(entry.nibbles);
        room_answer(self.coefficients(), samples, out.len())?;
        let context = self.play_block(k, entry, out);
        Ok(Playback { samples, context })
    }

    // Blocks 0 to K-1 in turn to the output, each after the one before: the context after the last.
    fn play_blocks(&self, out: &mut [i16]) -> FrameContext
        requires { AllPlayable self.now (length out.old) }
        ensures { playing result out.new ≡ all_into self.now out.old }
    {
        let blocks = self.blocks();
        let mut context = FrameContext::new();
        let mut at: usize = 0;
        for k in 0..blocks {
            let entry = self.entry(k);
            context = self.play_block(k, entry, &mut out[at..]);
            at += address_to_sample(entry.nibbles) as usize;
        }
        context
    }

    // Plays the whole image.
    pub(crate) fn play_all(&self, out: &mut [i16]) -> Result<Playback, Refusal>
        ensures { effect (play_outcome result) (playing (final_context result new_context) out.new) ≡ play_all_by (room_answer (coefficients_in self.now) (total_in self.now) (length out.old)) self.now out.old }
    {
        let samples = u64::from(self.total());
        room_answer(self.coefficients(), samples, out.len())?;
        let context = self.play_blocks(out);
        Ok(Playback { samples, context })
    }
}
