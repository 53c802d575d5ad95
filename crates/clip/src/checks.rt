// The tests of the calls, in the documents' sequence.
ghost use Rattle.std.specs.Prelude.{◌≡◌, ◌≤◌};
ghost use Rattle.whole.specs.Outcome.{accepted};
ghost use Rattle.clip.specs.Encoding.{outcome, encoded_frames, encoder_shape, counts_ok, valid, going_answer, feed_answer, close_answer, start_answer};

use crate::starting::Start;
use crate::{Encoder, Refusal};
use frame::coefficients_ok;
use layout::limits::{loop_ok, numbers_ok};
use layout::sizes::{frame_count, image_size, loop_count, shape_of};
use layout::{LEAST_BLOCK, MOST_BLOCK, Shape};
use whole::{MOST_SAMPLES, SAMPLES_PER_FRAME};

impl Encoder {
    // The shape of the clip that the state encodes.
    pub(crate) fn shape(self) -> Shape
        ensures { result ≡ encoder_shape self }
    {
        shape_of(self.total, self.block, loop_count(self.looped))
    }

    // The frames encoded so far.
    fn encoded_frames(self) -> usize
        requires { (self.fed ≤ self.total) × (self.total ≤ 14680064) }
        ensures same { result ≡ encoded_frames self.fed self.total self.closed }
        ensures most { result ≤ 1048576 }
    {
        if self.closed {
            frame_count(self.total as usize)
        } else {
            self.fed as usize / SAMPLES_PER_FRAME
        }
    }

    // Whether the clip is closed only when whole, and the passes are not too many.
    #[tactic(auto, unfolding(crate::specs::Encoding::counts_ok))]
    fn counts_ok(self) -> bool
        requires { (self.fed ≤ self.total) × (self.total ≤ 14680064) }
        ensures { result ≡ counts_ok self.fed self.total self.closed self.passes }
    {
        if self.closed && self.fed < self.total {
            return false;
        }
        self.passes as usize <= 104 * self.encoded_frames()
    }

    // The state test, code 1.
    #[tactic(auto, unfolding(crate::specs::Encoding::valid))]
    fn valid(self) -> bool
        ensures { result ≡ valid self }
    {
        numbers_ok(self.fed, self.total, self.block, self.rate)
            && coefficients_ok(self.coefficients)
            && loop_ok(self.looped, self.total)
            && self.counts_ok()
    }

    // Codes 1, 8 and 9, which feeding and closing share, for an image buffer of some size.
    fn going(self, room: usize) -> Result<(), Refusal>
        ensures { outcome result ≡ going_answer self room (accepted tt) }
    {
        if !self.valid() {
            return Err(Refusal::InvalidState);
        }
        let size = image_size(self.shape());
        let short = room < size;
        if short {
            return Err(Refusal::ImageTooShort);
        }
        if self.closed {
            return Err(Refusal::AlreadyClosed);
        }
        Ok(())
    }
}

// Codes 1, 8, 9 and 10, for a piece of some length and an image buffer of some size.
pub(crate) fn feed_answer(e: Encoder, piece: usize, room: usize) -> Result<(), Refusal>
    ensures { outcome result ≡ feed_answer e piece room }
{
    e.going(room)?;
    if piece > (e.total - e.fed) as usize {
        return Err(Refusal::PieceTooLong);
    }
    Ok(())
}

// Codes 1, 8, 9 and 11.
pub(crate) fn close_answer(e: Encoder, room: usize) -> Result<(), Refusal>
    ensures { outcome result ≡ close_answer e room }
{
    e.going(room)?;
    if e.fed < e.total {
        return Err(Refusal::Unfinished);
    }
    Ok(())
}

// Codes 4, 5, 6, 7, 23 and 8.
#[tactic(auto, unfolding(crate::specs::Encoding::start_answer))]
pub(crate) fn start_answer(g: Start, room: usize) -> Result<(), Refusal>
    ensures { outcome result ≡ start_answer g room }
{
    let counted = (1..=MOST_SAMPLES).contains(&g.total);
    if !counted {
        return Err(Refusal::BadSampleCount);
    }
    if g.rate == 0 {
        return Err(Refusal::RateZero);
    }
    if !(LEAST_BLOCK..=MOST_BLOCK).contains(&g.block) {
        return Err(Refusal::BadBlockSize);
    }
    if !coefficients_ok(g.coefficients) {
        return Err(Refusal::CoefficientOutside);
    }
    if !loop_ok(g.looped, g.total) {
        return Err(Refusal::LoopOutside);
    }
    let needed = image_size(g.cut().shape());
    let short = room < needed;
    if short {
        return Err(Refusal::ImageTooShort);
    }
    Ok(())
}
