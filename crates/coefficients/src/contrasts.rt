// The contrasts of a record with some vectors, and the vector of the least.
ghost use Rattle.std.specs.Prelude.{◌≡◌, ◌≤◌, ℕ, true, length, Float};
ghost use Rattle.coefficients.specs.Clusters as Clusters;
ghost use Rattle.coefficients.specs.inner.PlainContrasts as PlainContrasts;
ghost use Rattle.coefficients.specs.inner.PlainContrasts.{Small, Smalls, SmallTerms, AllSmall};
ghost use Rattle.coefficients.specs.inner.SharedTerms as SharedTerms;
ghost use Rattle.coefficients.specs.inner.SharedTerms.{Nearest, gone_through};

use crate::merging::{Record, Side, VectorTerms};

// A way to work out a contrast, and what is kept of the contrasts so far.
pub(crate) trait Contrasts: Copy {
    ghost use Rattle.std.specs.Prelude.{◌≡◌, ℕ, Float};
    ghost use Rattle.coefficients.specs.declared.merging.Record.{Record};
    ghost use Rattle.coefficients.specs.declared.merging.Side.{Side};
    ghost use Rattle.coefficients.specs.declared.merging.VectorTerms.{VectorTerms};

    ghost side: { Record → Float → Side };

    ghost contrast: { VectorTerms → Side → Float };

    ghost none: { Self };

    ghost and: { Self → Float → ℕ → Self };

    // A record's part in its contrasts.
    fn side(r: Record, val: f64) -> Side
        ensures { result ≡ side r val };

    // The contrast of a vector and a record.
    fn contrast(v: VectorTerms, s: Side) -> f64
        ensures { result ≡ contrast v s };

    // What is kept before the first contrast.
    fn none() -> Self
        ensures { result ≡ none };

    // What is kept with that of number i.
    fn and(self, t: f64, i: usize) -> Self
        ensures { result ≡ and self t i };
}

// The least contrast so far, and its place: contrasts by `mul_add`, as the reference has them.
#[derive(Clone, Copy)]
pub(crate) struct Best {
    pub value: f64,
    pub index: usize,
}

impl Contrasts for Best {
    ghost side = { SharedTerms.record_side };

    ghost contrast = { SharedTerms.terms_contrast };

    ghost none = { SharedTerms.no_best };

    ghost and = { Clusters.better };

    #[tactic(auto, unfolding(crate::specs::inner::SharedTerms::record_side))]
    fn side(r: Record, val: f64) -> Side {
        Side {
            twice: 2.0 * val,
            last: 2.0 * float::mul_add(-r.v1, val, -r.v2),
        }
    }

    #[tactic(auto, unfolding(crate::specs::inner::SharedTerms::terms_contrast))]
    fn contrast(v: VectorTerms, s: Side) -> f64 {
        float::mul_add(s.last, v.val3, float::mul_add(s.twice, v.val2, v.val1))
    }

    fn none() -> Best {
        Best {
            value: 1.0e30,
            index: 0,
        }
    }

    #[tactic(auto, unfolding(crate::specs::Clusters::better))]
    fn and(self, t: f64, i: usize) -> Best {
        if t < self.value {
            Best { value: t, index: i }
        } else {
            self
        }
    }
}

// The least contrast so far, the one next to it, and the place of the least: contrasts by plain products and sums, which are faster.
#[derive(Clone, Copy)]
pub(crate) struct Lead {
    pub least: f64,
    pub second: f64,
    pub index: usize,
}

impl Contrasts for Lead {
    ghost side = { PlainContrasts.plain_side };

    ghost contrast = { PlainContrasts.plain_contrast };

    ghost none = { PlainContrasts.no_lead };

    ghost and = { PlainContrasts.closer };

    #[tactic(auto, unfolding(crate::specs::inner::PlainContrasts::plain_side))]
    fn side(r: Record, val: f64) -> Side {
        Side {
            twice: 2.0 * val,
            last: 2.0 * (-r.v1 * val + -r.v2),
        }
    }

    #[tactic(auto, unfolding(crate::specs::inner::PlainContrasts::plain_contrast))]
    fn contrast(v: VectorTerms, s: Side) -> f64 {
        s.last * v.val3 + (s.twice * v.val2 + v.val1)
    }

    fn none() -> Lead {
        Lead {
            least: 1.0e30,
            second: 1.0e30,
            index: 0,
        }
    }

    #[tactic(auto, unfolding(crate::specs::inner::PlainContrasts::closer))]
    fn and(self, t: f64, i: usize) -> Lead {
        if t < self.least {
            Lead {
                least: t,
                second: lower(self.least, self.second),
                index: i,
            }
        } else {
            Lead {
                second: lower(t, self.second),
                ..self
            }
        }
    }
}

// The lower of two numbers.
// Stays: the lower by < alone, which is the definition `lower` that the law of plain contrasts stands on; `float::min` has more cases.
#[tactic(auto, unfolding(crate::specs::inner::PlainContrasts::lower))]
fn lower(a: f64, b: f64) -> f64
    ensures { result ≡ PlainContrasts.lower a b }
{
    if a < b { a } else { b }
}

// What is kept of a record's contrasts with some vectors.
#[tactic(auto, unfolding(crate::specs::inner::SharedTerms::gone_through))]
fn gone_through<C: Contrasts>(ts: &[VectorTerms], r: Record, val: f64) -> C
    ensures { result ≡ gone_through C.none C.and C.contrast ts.now (C.side r val) (length ts.now) }
{
    let s = C::side(r, val);
    let mut kept = C::none();
    for (i, t) in ts.iter().enumerate() {
        kept = kept.and(C::contrast(*t, s), i);
    }
    kept
}

// Less than 16 in size, so no NaN.
fn is_small(x: f64) -> bool
    ensures { result ≡ true → Small x }
{
    -16.0 < x && x < 16.0
}

// Whether three numbers are small.
fn are_small(a: f64, b: f64, c: f64) -> bool
    ensures { result ≡ true → Smalls a b c }
{
    is_small(a) && is_small(b) && is_small(c)
}

// Whether a vector's terms are small.
fn small_terms(v: &VectorTerms) -> bool
    ensures { result ≡ true → SmallTerms v.now }
{
    are_small(v.val1, v.val2, v.val3)
}

// Whether each vector's terms are small.
pub(crate) fn all_small(ts: &[VectorTerms]) -> bool
    ensures { result ≡ true → AllSmall ts.now (length ts.now) }
{
    ts.iter().all(small_terms)
}

// The first vector of strictly least contrast below 1.0e30, or vector 0: by plain contrasts where these are within bounds and the least is clear of the next.
// Stays: `small` is a flag and no Option of small terms, since exact contrasts are taken of the same terms where it is false.
pub(crate) fn nearest(ts: &[VectorTerms], small: bool, r: Record, val: f64) -> usize
    requires eight { length ts.now ≤ 8 }
    requires all_small { small ≡ true → AllSmall ts.now (length ts.now) }
    ensures { Nearest ts.now (length ts.now) (SharedTerms.record_side r val) result }
{
    if small && are_small(r.v1, r.v2, val) {
        let lead = gone_through::<Lead>(ts, r, val);
        if lead.least + 0.000000007450580596923828125 < lead.second {
            return lead.index;
        }
    }
    gone_through::<Best>(ts, r, val).index
}
