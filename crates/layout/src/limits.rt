// The limits of a clip's numbers.
ghost use Rattle.std.specs.Prelude.{◌≡◌};
ghost use Rattle.layout.specs.Limits.{numbers_ok, loop_ok};

use crate::{LEAST_BLOCK, Loop, MOST_BLOCK};
use whole::MOST_SAMPLES;

// Whether N, B, the rate and n are within their limits. It is internal: crate image calls it.
#[tactic(auto, using(std::proofs::lemmas::Bool::Decides::nat_tests), unfolding(crate::specs::Limits::numbers_ok))]
pub fn numbers_ok(n: u32, total: u32, block: u32, rate: u32) -> bool
    ensures { result ≡ numbers_ok n total block rate }
{
    n <= total
        && (1..=MOST_SAMPLES).contains(&total)
        && (LEAST_BLOCK..=MOST_BLOCK).contains(&block)
        && block % 8 == 0
        && rate != 0
}

// Whether a loop is none, or has its start below its end and its end not above N. It is internal: clip and image call it.
#[tactic(auto, using(std::proofs::lemmas::Bool::Decides::nat_tests), unfolding(crate::specs::Limits::loop_ok))]
pub fn loop_ok(looped: Loop, total: u32) -> bool
    ensures { result ≡ loop_ok looped total }
{
    !looped.present || looped.start < looped.end && looped.end <= total
}
