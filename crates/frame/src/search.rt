// The scale search for one pair of coefficients.
ghost use Rattle.std.specs.Prelude.{◌≡◌, ◌≤◌, IfSome};
ghost use Rattle.frame.specs.Pass.{run_pass};
ghost use Rattle.frame.specs.Search.{raise, is_last, try_coefficients};
ghost use Rattle.frame.specs.inner.Places.{history_of, samples_of};
ghost use Rattle.frame.specs.inner.Seen.{pass_of};

use crate::estimate::first_exponent;
use crate::exponent::Exponent;
use crate::pair::Pair;
use crate::pass::run_pass;
use crate::places::Frame;
use crate::quick::run_quick;
use crate::room::Room;
use crate::seen::{Seen, show};

// A candidate, and what a pass at its exponent gives.
#[derive(Clone, Copy)]
pub(crate) struct Coded {
    pub nibbles: [i8; 14],
    pub samples: [i16; 14],
    pub distance: u64,
    pub exponent: u8,
    pub passes: u32,
}

// While y is above 256 it is halved, and p rises, to 11 at most.
fn raise(first: Exponent, overflow: u64) -> Exponent
    requires { overflow ≤ 4294967288 }
    ensures { result.value ≡ raise overflow first.value }
{
    let mut p = first.value;
    let mut y = overflow + 8;
    while 256 < y {
        p = (p + 1).min(11);
        y /= 2;
    }
    Exponent { value: p }
}

// Whether a pass ends the search.
#[tactic(auto, using(std::proofs::lemmas::Bool::Decides::nat_tests), unfolding(crate::specs::Search::is_last))]
fn is_last(p: Exponent, overflow: u64) -> bool
    ensures { result ≡ is_last p.value overflow }
{
    p.value == 12 || overflow <= 1
}

// What a quick pass at exponent p shows, where it is sure.
fn quick_pass(pair: Pair, frame: &Frame, p: Exponent, room: &mut Room) -> Option<Seen>
    ensures { IfSome result (λ seen. (pass_of seen room.new.s ≡ run_pass pair.c0 pair.c1 (history_of frame.now.samples) (samples_of frame.now.samples) p.value) × (seen.overflow ≤ 248)) }
{
    if !pair.is_roomy() {
        return None;
    }
    run_quick(pair, frame, p, room)?;
    show(frame, room, p)
}

// Passes at rising exponents: the first that meets the test ends the search, with the finished candidate.
pub(crate) fn try_coefficients(pair: Pair, frame: &Frame) -> Coded
    ensures { result ≡ try_coefficients pair.c0 pair.c1 (history_of frame.now.samples) (samples_of frame.now.samples) }
{
    let mut room = Room::new();
    let mut p = first_exponent(pair, frame);
    let mut passes: u32 = 0;
    loop {
        passes += 1;
        if let Some(seen) = quick_pass(pair, frame, p, &mut room) {
            // Its overflow is 248 at most, which raises nothing.
            if is_last(p, seen.overflow) {
                break seen.finished(&room, p, passes);
            }
            p = p.next();
        } else {
            let pass = run_pass(pair, frame, p);
            let q = raise(p, pass.overflow);
            if is_last(q, pass.overflow) {
                break pass.finished(q, passes);
            }
            p = q.next();
        }
    }
}
