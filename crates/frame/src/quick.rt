// A pass in units of 2^-32, without the rounding to 24 bits and the clamp to 16.
ghost use Rattle.std.specs.Prelude.{◌≡◌, ◌+◌, ◌*◌, ◌≤◌, IfSome, nat_abs, ◌+ℤ◌, ◌-ℤ◌, ◌*ℤ◌};
ghost use Rattle.frame.specs.inner.Places.{history_of, samples_of};
ghost use Rattle.frame.specs.inner.Quick.{Roomy, ScalesOf, Steps, Traces, is_beyond, rest_of, traced_by};

use crate::exponent::Exponent;
use crate::pair::Pair;
use crate::places::Frame;
use crate::room::Room;

// What a sample leaves: D raised by half a step and eight steps, and the reconstructed sample.
#[derive(Clone, Copy)]
pub(crate) struct Traced {
    pub w: i32,
    pub s: i64,
}

// What a pass compares with and adds: a step less one unit, sixteen steps, fifteen; half a step, and eight.
#[derive(Clone, Copy)]
pub(crate) struct Scales {
    pub mask: i64,
    pub all: i64,
    pub top: i64,
    pub half: i64,
    pub eight: i64,
}

impl Scales {
    // What the nibble leaves of w.
    fn rest(self, w: i64) -> i64
        requires { Steps self.mask self.all self.top }
        ensures { result ≡ rest_of w (nat_abs self.mask + 1) }
    {
        if w < 0 {
            w
        } else if w < self.all {
            w & self.mask
        } else {
            w - self.top
        }
    }
}

// The scales at exponent p.
fn scales_at(p: Exponent) -> Scales
    ensures { ScalesOf p.value result }
{
    let u = 4294967296i64 << p.value;
    Scales {
        mask: 2048 * u - 1,
        all: 32768 * u,
        top: 30720 * u,
        half: 1024 * u + 4400193994752,
        eight: 16384 * u - 4400193994752,
    }
}

// One sample: its w is g less c0 * newest.
fn trace(y: i64, g: i64, newest: i64, c0: i64, k: Scales) -> Traced
    requires steps { Steps k.mask k.all k.top }
    requires newest_bound { nat_abs (c0 *ℤ newest) ≤ 4611686018427387904 }
    requires newest_bound_2 { nat_abs (g -ℤ c0 *ℤ newest) ≤ 2017460224 * 4294967296 }
    requires mask_bound { nat_abs (y -ℤ rest_of (g -ℤ c0 *ℤ newest) (nat_abs k.mask + 1)) ≤ 2017460224 * 4294967296 }
    ensures { result ≡ traced_by y (g -ℤ c0 *ℤ newest) (nat_abs k.mask + 1) }
{
    let w = g - c0 * newest;
    Traced {
        w: (w >> 32) as i32,
        s: (y - k.rest(w)) >> 43,
    }
}

// y + e, less c1 * older.
fn begun(y: i64, e: i64, c1: i64, older: i64) -> i64
    requires y_bound { nat_abs y ≤ 576460752303423488 }
    requires e_bound { nat_abs e ≤ 576460752303423488 }
    requires older_bound { nat_abs (c1 *ℤ older) ≤ 4611686018427387904 }
    ensures { result ≡ y +ℤ (e -ℤ c1 *ℤ older) }
{
    y + (e - c1 * older)
}

// Whether s has more than 16 bits.
// Stays: the wrong program `sample_32768_kept` moves this bound, which `i16::try_from` would have in itself.
#[tactic(auto, unfolding(crate::specs::inner::Quick::is_beyond))]
fn is_beyond(s: i64) -> bool
    ensures { result ≡ is_beyond s }
{
    s < -32768 || 32767 < s
}

// A pass at exponent p into `room`; none where a sample has more than 16 bits.
// Stays: `run_pass` holds of every pass; this one, by plain sums, is for speed (docs/PROVING.md, "Speed").
pub(crate) fn run_quick(pair: Pair, frame: &Frame, p: Exponent, room: &mut Room) -> Option<()>
    requires { Roomy pair.c0 pair.c1 }
    ensures { IfSome result (λ _. Traces pair.c0 pair.c1 (history_of frame.now.samples) (samples_of frame.now.samples) p.value room.new.w room.new.s) }
{
    let a = 4294967295 * i64::from(pair.c0);
    let b = 4294967295 * i64::from(pair.c1);
    let k = scales_at(p);
    let mut newest = i64::from(frame.samples[1]);
    let mut y = frame.fine[0] + k.half;
    let mut g = begun(y, k.eight, b, i64::from(frame.samples[0]));
    // Stays: by place, since three arrays and more go by one; a chain of zips would be no plainer.
    for i in 0..14 {
        let t = trace(y, g, newest, a, k);
        let sample = t.s;
        if is_beyond(sample) {
            return None;
        }
        room.w[i] = t.w;
        room.s[i] = sample as i16;
        y = frame.fine[i + 1] + k.half;
        g = begun(y, k.eight, b, newest);
        newest = sample;
    }
    Some(())
}
