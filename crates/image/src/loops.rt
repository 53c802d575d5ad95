// The loop of an image: reading it, testing it, playing it.
ghost use Rattle.std.specs.Prelude.{◌≡◌, ◌*◌, length};
ghost use Rattle.std.proofs.lemmas.List.Edits.{sets};
ghost use Rattle.whole.specs.Outcome.{effect};
ghost use Rattle.image.specs.inner.Asked.{Headed, Turns};
ghost use Rattle.image.specs.inner.Played.{play_loop_by};
ghost use Rattle.image.specs.Reading.{coefficients_in, loop_in, loop_context_in};
ghost use Rattle.image.specs.Opening.{outcome, loop_fits};
ghost use Rattle.image.specs.Playing.{room_answer};
ghost use Rattle.image.specs.Looping.{loop_length, loop_once, repeated};

use crate::Refusal;
use crate::bodies::read_context;
use crate::checks::room_answer;
use crate::heading::read_shape;
use crate::opened::Opened;
use block::FrameContext;
use layout::Loop;
use layout::fields::{get16, get32};
use layout::limits::loop_ok;
use layout::sizes::{bodies_place, entry_place};
use whole::{BYTES_PER_FRAME, SAMPLES_PER_FRAME};

// The loop that the entry after the blocks' says, or none. It is internal: crate dsp calls it.
// Stays: Headed is asked here and below, since loop_fits comes before the image is known to open.
pub fn read_loop(image: &[u8]) -> Loop
    requires { Headed image.now }
    ensures { result ≡ loop_in image.now }
{
    if get16(image, 50) != 1 {
        return Loop::default();
    }
    let at = entry_place(get32(image, 52) as usize);
    Loop {
        start: get32(image, at),
        end: get32(image, at + 4),
        present: true,
    }
}

// The context at the loop's start, as it is stored; zeros without a loop. It is internal: crate dsp calls it.
pub fn loop_context(image: &[u8], looped: Loop) -> FrameContext
    requires { Headed image.now × (looped ≡ loop_in image.now) }
    ensures { result ≡ loop_context_in image.now }
{
    if looped.present {
        read_context(image, get32(image, 52) as usize)
    } else {
        FrameContext::new()
    }
}

// Code 24 is not to be given: no loop, or one within N samples whose entry tells its frame's header byte and ends in zeros.
pub(crate) fn loop_fits(image: &[u8]) -> bool
    requires { Headed image.now }
    ensures { result ≡ loop_fits image.now }
{
    let looped = read_loop(image);
    if !loop_ok(looped, get32(image, 4)) {
        return false;
    }
    if !looped.present {
        return true;
    }
    let at = entry_place(get32(image, 52) as usize);
    let frame = bodies_place(read_shape(image))
        + BYTES_PER_FRAME * (looped.start as usize / SAMPLES_PER_FRAME);
    let told = get16(image, at + 8);
    let header = u32::from(image[frame]);
    let same = told == header;
    same && get16(image, at + 14) == 0
}

impl<'a> Opened<'a> {
    // The loop `times` times over to the output, each turn from the stored context.
    // Stays: the loop and the context at its start are two, as C has them (doilycairn_opening).
    fn play_turns(&self, looped: Loop, times: u32, context: FrameContext, out: &mut [i16])
        requires { Turns self.now times (length out.old) × (looped ≡ loop_in self.now) × (context ≡ loop_context_in self.now) }
        ensures { out.new ≡ sets out.old 0 (repeated times (loop_once self.now)) }
    {
        let first = looped.start as usize;
        let count = looped.end as usize - first;
        for turn in 0..times {
            let done = turn as usize * count;
            self.play_run(first, count, context, &mut out[done..]);
        }
    }

    // Plays the loop so many times over.
    pub(crate) fn play_loop(&self, times: u32, out: &mut [i16]) -> Result<u64, Refusal>
        ensures { effect (outcome result) out.new ≡ play_loop_by (room_answer (coefficients_in self.now) (times * loop_length self.now) (length out.old)) self.now times out.old }
    {
        let looped = self.looped();
        let once = looped.end - looped.start;
        let samples = u64::from(times) * u64::from(once);
        room_answer(self.coefficients(), samples, out.len())?;
        if looped.present {
            let context = self.loop_context(looped);
            self.play_turns(looped, times, context, out);
        }
        Ok(samples)
    }
}
