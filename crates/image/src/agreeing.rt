// Two images compared in all that counts: heads, contexts, loops and the sound.
ghost use Rattle.std.specs.Prelude.{◌≡◌};
ghost use Rattle.image.specs.Reading.{blocks_in};
ghost use Rattle.image.specs.Sameness.{same_head, same_context, same_contexts, same_loop, agree};

use crate::Head;
use crate::opened::Opened;
use block::FrameContext;

// Whether N, rate, gain, B and coefficients of two heads are equal.
#[tactic(auto, using(std::proofs::lemmas::Bool::Decides::nat_tests, crate::proofs::LawsEqual::library_equal_sixteen), unfolding(crate::specs::Sameness::same_head))]
fn heads_agree(first: Head, second: Head) -> bool
    ensures { result ≡ same_head first second }
{
    // Stays: not == of two heads, since same_head leaves K out.
    first.total == second.total
        && first.rate == second.rate
        && first.gain == second.gain
        && first.block == second.block
        && first.coefficients == second.coefficients
}

// Whether two contexts have the same header, its top bit not counted, and the same samples.
#[tactic(auto, using(std::proofs::lemmas::Bool::Decides::nat_tests, crate::proofs::LawsEqual::library_equal), unfolding(crate::specs::Sameness::same_context))]
fn contexts_agree(first: FrameContext, second: FrameContext) -> bool
    ensures { result ≡ same_context first second }
{
    // Stays: not ==, since the top bit of a header does not count (edit top_bit_compared).
    let headers = first.predictor_and_scale % 128 == second.predictor_and_scale % 128;
    headers && first.last_samples == second.last_samples
}

impl<'a> Opened<'a> {
    // Whether the contexts of all blocks of two images agree; both have as many.
    fn tables_agree(&self, other: &Opened) -> bool
        requires { blocks_in self.now ≡ blocks_in other.now }
        ensures { result ≡ same_contexts self.now other.now (blocks_in self.now) }
    {
        let blocks = self.blocks();
        for k in 0..blocks {
            let one = self.context(k);
            let two = other.context(k);
            if !contexts_agree(one, two) {
                return false;
            }
        }
        true
    }

    // Whether both images have no loop, or both the same one with the same context at its start.
    fn loops_agree(&self, other: &Opened) -> bool
        ensures { result ≡ same_loop self.now other.now }
    {
        let first = self.looped();
        let second = other.looped();
        let one = self.loop_context(first);
        let two = other.loop_context(second);
        first == second && contexts_agree(one, two)
    }

    // Whether two images agree in all that counts; the sound, which takes the most time, is compared last.
    pub(crate) fn agree(&self, other: &Opened) -> bool
        ensures { result ≡ agree self.now other.now }
    {
        let first = self.head();
        let second = other.head();
        if !heads_agree(first, second) {
            return false;
        }
        if !self.tables_agree(other) {
            return false;
        }
        self.loops_agree(other) && self.same_sound(other)
    }
}
