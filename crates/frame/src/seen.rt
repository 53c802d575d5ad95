// What the numbers of a quick pass show, where they are sure.
ghost use Rattle.std.specs.Prelude.{cond, ◌≡◌, ℕ, ◌≤◌, ◌<◌, IfSome, pos, nat_abs, get_or};
ghost use Rattle.std.specs.Int.Signed.{mag};
ghost use Rattle.whole.specs.Whole.{clamp16};
ghost use Rattle.frame.specs.Search.{finished};
ghost use Rattle.frame.specs.inner.Nibbles.{InNibble};
ghost use Rattle.frame.specs.inner.Quick.{steps_of};
ghost use Rattle.frame.specs.inner.Seen.{Shows, is_near, pass_of};

use crate::exponent::Exponent;
use crate::pass::squared_difference;
use crate::places::Frame;
use crate::room::Room;
use crate::search::Coded;

// Sixteen nibbles, the last two of no sample, overflow and distance of a pass.
#[derive(Clone, Copy)]
pub(crate) struct Seen {
    pub nibbles: [i16; 16],
    pub overflow: u64,
    pub distance: u64,
}

impl Seen {
    // The candidate that this pass finishes, its samples in `room`.
    // Stays: beside the one of a Pass, which has its samples within it and its nibbles as they are kept.
    pub(crate) fn finished(self, room: &Room, exponent: Exponent, passes: u32) -> Coded
        requires { (k : ℕ) → k < 14 → InNibble (get_or self.nibbles k (pos 0)) }
        ensures { result ≡ finished (pass_of self room.now.s) exponent.value passes }
    {
        let wide = self.nibbles;
        let mut nibbles = [0i8; 14];
        let mut samples = [0i16; 14];
        // Stays: the samples beside the nibbles; by `copy_from_slice` the encoder was 4 % slower.
        for i in 0..14 {
            nibbles[i] = wide[i] as i8;
            samples[i] = room.s[i];
        }
        Coded {
            nibbles,
            samples,
            distance: self.distance,
            exponent: exponent.value,
            passes,
        }
    }
}

// The number that is clamped to a nibble, or the nearer end of 16 bits.
fn narrowed_steps(w: i32, p: Exponent) -> i16
    requires { nat_abs w ≤ 2017460224 }
    ensures { result ≡ clamp16 (steps_of w p.value) }
{
    whole::clamp_i16(i64::from((w - (16384i32 << p.value)) >> (p.value + 11)))
}

// n, or -1 - n below 0.
fn folded(n: i16) -> i16
    ensures { result ≡ pos (mag n) }
{
    n.max(-1 - n)
}

// 1 where w is near a multiple of a step, else `near`.
fn near_or(near: u32, w: i32, p: Exponent) -> u32
    requires { nat_abs w ≤ 2017460224 }
    ensures { result ≡ cond (is_near w p.value) 1 near }
{
    let m = (1i32 << p.value) >> 5;
    if ((w + m) & ((2048i32 << p.value) - 1)) < 2 * m {
        return 1;
    }
    near
}

// What `room` shows of a pass at exponent p, where it is sure.
pub(crate) fn show(frame: &Frame, room: &Room, p: Exponent) -> Option<Seen>
    ensures { IfSome result (Shows frame.now.samples room.now.w room.now.s p.value) }
{
    let mut nibbles = [0i16; 16];
    let mut most: i16 = 0;
    let mut near: u32 = 0;
    let mut high: u32 = 0;
    let mut low: u32 = 0;
    // Stays: by place, since three arrays and more go by one; a chain of zips would be no plainer.
    for i in 0..16 {
        let w = room.w[i];
        let n = narrowed_steps(w, p);
        nibbles[i] = n.clamp(-8, 7);
        most = most.max(folded(n));
        near = near_or(near, w, p);
        let e = squared_difference(frame.samples[i + 2], room.s[i]);
        high += e / 65536;
        low += e % 65536;
    }
    let apart = near == 0;
    if apart && most < 256 {
        Some(Seen {
            nibbles,
            overflow: u64::from(most.unsigned_abs().saturating_sub(7)),
            distance: u64::from(high) * 65536 + u64::from(low),
        })
    } else {
        None
    }
}
