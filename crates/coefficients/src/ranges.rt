// The prediction of a frame: its two linear equations, decomposed, solved and merged.
ghost use Rattle.std.specs.Prelude.{◌≡◌, if◌then◌else◌};
ghost use Rattle.std.specs.Float.Ieee as Ieee;
ghost use Rattle.coefficients.specs.Constants.{f0};
ghost use Rattle.coefficients.specs.Analysis as Analysis;
ghost use Rattle.std.specs.Borrow.{sem};
ghost use Rattle.coefficients.specs.inner.LentNumber.{LendsNumber};

use crate::merging::Vec3;

// What quadratic_merge leaves: the vector's second and third numbers.
// Stays: two numbers as a Record has, but not yet a record's: `finish_record` makes the one of the other.
#[derive(Clone, Copy)]
pub(crate) struct Merged {
    pub v1: f64,
    pub v2: f64,
}

// Rows 1 and 2 of the matrix, columns 1 and 2.
#[derive(Clone, Copy)]
pub(crate) struct Mat2 {
    pub a11: f64,
    pub a12: f64,
    pub a21: f64,
    pub a22: f64,
}

// A row of the matrix, and the vector's number of that place: row 0 is outside the equations.
#[derive(Clone, Copy, PartialEq, Eq)]
pub(crate) enum Row {
    Zero,
    One,
    Two,
}

// What analyze_ranges leaves: the matrix, and the pivots of its rows.
#[derive(Clone, Copy)]
pub(crate) struct Ranges {
    pub m: Mat2,
    pub i1: Row,
    pub i2: Row,
}

// The second and third numbers of a vector, merged: none where the second is not within -1 and 1.
#[tactic(auto, unfolding(crate::specs::Analysis::quadratic_merge))]
pub(crate) fn quadratic_merge(v: Vec3) -> Option<Merged>
    ensures { result ≡ Analysis.quadratic_merge v }
{
    let v2 = v.x2;
    let tmp = float::mul_add(v2, -v2, 1.0);
    if tmp == 0.0 {
        return None;
    }
    let v1 = float::mul_add(v.x1, -v2, v.x1) / tmp;
    if float::abs(v1) > 1.0 {
        return None;
    }
    Some(Merged { v1, v2 })
}

// The row of the larger of two, the later of equals; 0 where a NaN keeps both tests from choosing.
#[tactic(auto, unfolding(crate::specs::Analysis::pivot))]
fn pivot(a: f64, b: f64) -> Row
    ensures { result ≡ Analysis.pivot a b }
{
    if a >= 0.0 {
        if b >= a { Row::Two } else { Row::One }
    } else if b >= 0.0 {
        Row::Two
    } else {
        Row::Zero
    }
}

// Row 2, or the row chosen before where a NaN keeps the test from choosing.
#[tactic(auto, unfolding(crate::specs::Analysis::pivot2))]
fn pivot2(a: f64, i: Row) -> Row
    ensures { result ≡ Analysis.pivot2 a i }
{
    if a >= 0.0 { Row::Two } else { i }
}

// Rows 1 and 2 change places.
fn exchanged(m: Mat2) -> Mat2
    ensures { result ≡ Analysis.exchanged m }
{
    Mat2 {
        a11: m.a21,
        a12: m.a22,
        a21: m.a11,
        a22: m.a12,
    }
}

// Rows 1 and i change places. Row 0 holds zeros.
// Stays: one function for this and the next would be told row 0's numbers and where they go, and be longer than the two.
#[tactic(auto, unfolding(crate::specs::Analysis::exchange1))]
fn exchange1(i: Row, m: Mat2) -> Mat2
    ensures { result ≡ Analysis.exchange1 i m }
{
    match i {
        Row::Zero => Mat2 {
            a11: 0.0,
            a12: 0.0,
            ..m
        },
        Row::One => m,
        Row::Two => exchanged(m),
    }
}

// Rows 2 and i change places. Row 0 holds t1 and t2.
#[tactic(auto, unfolding(crate::specs::Analysis::exchange2))]
fn exchange2(i: Row, t1: f64, t2: f64, m: Mat2) -> Mat2
    ensures { result ≡ Analysis.exchange2 i t1 t2 m }
{
    match i {
        Row::Zero => Mat2 {
            a21: t1,
            a22: t2,
            ..m
        },
        Row::One => exchanged(m),
        Row::Two => m,
    }
}

// The reciprocal that row 2 has after the first exchange.
#[tactic(auto, unfolding(crate::specs::Analysis::pick))]
fn pick(i: Row, a: f64, b: f64) -> f64
    ensures { result ≡ Analysis.pick i a b }
{
    if i == Row::Two { a } else { b }
}

// The matrix decomposed, with the reciprocals of its rows' largest numbers: none where its diagonal's numbers are too far apart.
#[tactic(auto, unfolding(crate::specs::Analysis::decomposed))]
fn decomposed(m: Mat2, r1: f64, r2: f64) -> Option<Ranges>
    ensures { result ≡ Analysis.decomposed m r1 r2 }
{
    let i1 = pivot(float::abs(m.a11) * r1, float::abs(m.a21) * r2);
    let n = exchange1(i1, m);
    let q2 = pick(i1, r1, r2);
    let l21 = n.a21 * (1.0 / n.a11);
    let u22 = float::mul_add(l21, -n.a12, n.a22);
    let i2 = pivot2(float::abs(u22) * q2, i1);
    let triangle = Mat2 {
        a21: l21,
        a22: u22,
        ..n
    };
    let o = exchange2(i2, m.a11, m.a12, triangle);
    let p = float::abs(o.a11);
    let q = float::abs(o.a22);
    let low = float::min(float::min(1.0e10, p), q);
    let high = float::max(float::max(0.0, p), q);
    if low / high < 1.0e-10 {
        return None;
    }
    Some(Ranges { m: o, i1, i2 })
}

// The matrix decomposed: none where a row is all but zero.
#[tactic(auto, unfolding(crate::specs::Analysis::analyze_ranges))]
pub(crate) fn analyze_ranges(m: Mat2) -> Option<Ranges>
    ensures { result ≡ Analysis.analyze_ranges m }
{
    let x1 = float::max(float::abs(m.a11), float::abs(m.a12));
    if x1 < f64::EPSILON {
        return None;
    }
    let x2 = float::max(float::abs(m.a21), float::abs(m.a22));
    if x2 < f64::EPSILON {
        return None;
    }
    decomposed(m, 1.0 / x1, 1.0 / x2)
}

// The vector's number at place i, to be read or written.
#[tactic(auto, unfolding(crate::specs::Analysis::at, crate::specs::Analysis::put))]
fn number_at(v: &mut Vec3, i: Row) -> &mut f64
    ensures* writes_back { sem 𝓛 (LendsNumber v.entry i result) }
    ensures value { result.now ≡ Analysis.at v.old i }
{
    match i {
        Row::Zero => &mut v.x0,
        Row::One => &mut v.x1,
        Row::Two => &mut v.x2,
    }
}

// The solution of the two equations.
#[tactic(auto, unfolding(crate::specs::Analysis::bidirectional_filter, crate::specs::Analysis::put))]
pub(crate) fn bidirectional_filter(g: Ranges, v: Vec3) -> Vec3
    ensures { result ≡ Analysis.bidirectional_filter g v }
{
    let mut w = v;
    let first = number_at(&mut w, g.i1);
    let t1 = *first;
    *first = v.x1;
    w.x1 = t1;
    let x2 = w.x2;
    let second = number_at(&mut w, g.i2);
    let t2 = *second;
    *second = x2;
    let s2 = float::mul_add(w.x1, -g.m.a21, t2);
    let y2 = unless_zero(t1, s2, t2) / g.m.a22;
    Vec3 {
        x0: 1.0,
        x1: float::mul_add(y2, -g.m.a12, w.x1) / g.m.a11,
        x2: y2,
    }
}

// b where t is 0, a where it is not.
fn unless_zero(t: f64, a: f64, b: f64) -> f64
    ensures { result ≡ (if Ieee.eq t f0 then b else a) }
{
    if t == 0.0 { b } else { a }
}
