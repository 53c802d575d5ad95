// Records and vectors: what is made of each, and their contrast.
ghost use Rattle.std.specs.Prelude.{◌≡◌};
ghost use Rattle.coefficients.specs.Analysis as Analysis;
ghost use Rattle.coefficients.specs.inner.SharedTerms as SharedTerms;

// A record: the two numbers that follow the leading 1.
#[derive(Clone, Copy)]
pub(crate) struct Record {
    pub v1: f64,
    pub v2: f64,
}

// A vector of three numbers.
#[derive(Clone, Copy, Default)]
pub(crate) struct Vec3 {
    pub x0: f64,
    pub x1: f64,
    pub x2: f64,
}

// The parts of a contrast that depend on the vector alone: the two that are multiplied stand side by side.
#[derive(Clone, Copy, Default)]
pub(crate) struct VectorTerms {
    pub val2: f64,
    pub val3: f64,
    pub val1: f64,
}

// Those that depend on the record alone.
#[derive(Clone, Copy)]
pub(crate) struct Side {
    pub twice: f64,
    pub last: f64,
}

// A quotient that a record's contrasts and its filter share, and the two numbers that the record adds to a sum.
#[derive(Drop)]
pub(crate) struct RecordTerms {
    pub val: f64,
    pub d1: f64,
    pub d2: f64,
}

// x, or what stands for it where it is not within -1 and 1.
#[tactic(auto, unfolding(crate::specs::Analysis::within_one))]
pub(crate) fn within_one(x: f64) -> f64
    ensures { result ≡ Analysis.within_one x }
{
    if x >= 1.0 {
        0.9999999999
    } else if x <= -1.0 {
        -0.9999999999
    } else {
        x
    }
}

// A record of two numbers, each within -1 and 1.
#[tactic(auto, unfolding(crate::specs::Analysis::finish_record))]
pub(crate) fn finish_record(a: f64, b: f64) -> Record
    ensures { result ≡ Analysis.finish_record a b }
{
    let x1 = within_one(a);
    let x2 = within_one(b);
    Record {
        v1: float::mul_add(x2, x1, x1),
        v2: x2,
    }
}

// A vector's part in its contrast with a record.
#[tactic(auto, unfolding(crate::specs::inner::SharedTerms::vector_terms))]
pub(crate) fn vector_terms(a: Vec3) -> VectorTerms
    ensures { result ≡ SharedTerms.vector_terms a }
{
    VectorTerms {
        val1: float::mul_add(a.x2, a.x2, float::mul_add(a.x0, a.x0, a.x1 * a.x1)),
        val2: float::mul_add(a.x0, a.x1, a.x1 * a.x2),
        val3: a.x0 * a.x2,
    }
}

// What a record's contrasts divide, and what matrix_filter makes of it.
#[tactic(auto, unfolding(crate::specs::inner::SharedTerms::record_terms))]
pub(crate) fn record_terms(b: Record) -> RecordTerms
    ensures { result ≡ SharedTerms.record_terms b }
{
    let val = float::mul_add(b.v2, b.v1, -b.v1) / float::mul_add(b.v2, -b.v2, 1.0);
    let d1 = val + 0.0;
    RecordTerms {
        val,
        d1,
        d2: -b.v2 + float::mul_add(-b.v1, d1, 0.0),
    }
}

// -x / val where val is above 0, and 0 where it is not.
#[tactic(auto, unfolding(crate::specs::Analysis::quotient))]
fn quotient(val: f64, x: f64) -> f64
    ensures { result ≡ Analysis.quotient val x }
{
    if val > 0.0 { -x / val } else { 0.0 }
}

// A record of a sum of vectors.
#[tactic(auto, unfolding(crate::specs::Analysis::merge_finish_record))]
pub(crate) fn merge_finish_record(s: Vec3) -> Record
    ensures { result ≡ Analysis.merge_finish_record s }
{
    let d1 = quotient(s.x0, 0.0 + s.x1);
    let val = s.x0 * float::mul_add(d1, -d1, 1.0);
    let v2 = float::mul_add(d1, s.x1, 0.0);
    let d2 = quotient(val, v2 + s.x2);
    finish_record(d1, d2)
}
