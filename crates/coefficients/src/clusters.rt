// The vectors that the records are gathered around.
ghost use Rattle.std.specs.Prelude.{◌≡◌, ◌/◌, ◌%◌, ◌≤◌, length, map, take};
ghost use Rattle.coefficients.specs.Clusters as Clusters;
ghost use Rattle.coefficients.specs.inner.SharedTerms as SharedTerms;

use crate::contrasts::{all_small, nearest};
use crate::merging::{Record, Vec3, VectorTerms, merge_finish_record, record_terms, vector_terms};
use crate::store::{Records, first_vector};

// The records that joined a vector: how many, and the sum of what matrix_filter makes of them.
#[derive(Clone, Copy, Default)]
pub(crate) struct Cluster {
    pub count: u32,
    pub sum: Vec3,
}

// The terms of some vectors, at the front.
// Stays: a slice of up to eight, here and below, since `grow` works on the first two, four and eight of one array.
fn all_terms(vs: &[Vec3]) -> [VectorTerms; 8]
    requires { length vs.now ≤ 8 }
    ensures { take (length vs.now) result ≡ map SharedTerms.vector_terms vs.now }
{
    let mut terms = [VectorTerms::default(); 8];
    for (i, v) in vs.iter().enumerate() {
        terms[i] = vector_terms(*v);
    }
    terms
}

// The sum of two vectors.
#[tactic(auto, unfolding(crate::specs::Clusters::plus3))]
fn plus3(a: Vec3, b: Vec3) -> Vec3
    ensures { result ≡ Clusters.plus3 a b }
{
    Vec3 {
        x0: a.x0 + b.x0,
        x1: a.x1 + b.x1,
        x2: a.x2 + b.x2,
    }
}

// The records, each with the vector nearest to it.
fn gather(vs: &[Vec3], records: &Records) -> [Cluster; 8]
    requires { length vs.now ≤ 8 }
    ensures { result ≡ Clusters.gather vs.now (length vs.now) records.now }
{
    let mut clusters = [Cluster::default(); 8];
    let terms = all_terms(vs);
    let terms = &terms[..vs.len()];
    let small = all_small(terms);
    for k in 0..records.len() {
        let r = records.get(k);
        let q = record_terms(r);
        let i = nearest(terms, small, r, q.val);
        let filtered = Vec3 {
            x0: 1.0,
            x1: q.d1,
            x2: q.d2,
        };
        let cluster = clusters[i];
        clusters[i] = Cluster {
            count: cluster.count + 1,
            sum: plus3(cluster.sum, filtered),
        };
    }
    clusters
}

// A sum over its count; over 0, the sum.
#[tactic(auto, unfolding(crate::specs::Clusters::mean))]
fn mean(a: Vec3, c: u32) -> Vec3
    ensures { result ≡ Clusters.mean a c }
{
    if c == 0 {
        return a;
    }
    let d = f64::from(c);
    Vec3 {
        x0: a.x0 / d,
        x1: a.x1 / d,
        x2: a.x2 / d,
    }
}

// A record with the 1 that it does not store.
#[tactic(auto, unfolding(crate::specs::Clusters::with_one))]
fn with_one(r: Record) -> Vec3
    ensures { result ≡ Clusters.with_one r }
{
    Vec3 {
        x0: 1.0,
        x1: r.v1,
        x2: r.v2,
    }
}

// The vectors made anew.
#[tactic(auto, using(crate::proofs::RenewedVectors::renewed_more), unfolding(crate::specs::Clusters::renewed))]
fn renew(vs: &mut [Vec3], clusters: &[Cluster; 8])
    requires { length vs.old ≤ 8 }
    ensures { vs.new ≡ Clusters.renewed vs.old clusters.now (length vs.old) }
{
    for (i, v) in vs.iter_mut().enumerate() {
        let cluster = clusters[i];
        *v = with_one(merge_finish_record(mean(cluster.sum, cluster.count)));
    }
}

// One of filter_records' two rounds.
#[tactic(auto, unfolding(crate::specs::Clusters::filter_round))]
fn filter_round(vs: &mut [Vec3], records: &Records)
    requires { length vs.old ≤ 8 }
    ensures { vs.new ≡ Clusters.filter_round vs.old (length vs.old) records.now }
{
    let clusters = gather(vs, records);
    renew(vs, &clusters);
}

// A vector a little to the side of another.
#[tactic(auto, unfolding(crate::specs::Clusters::beside))]
fn beside(v: Vec3) -> Vec3
    ensures { result ≡ Clusters.beside v }
{
    Vec3 {
        x0: float::mul_add(0.01, 0.0, v.x0),
        x1: float::mul_add(0.01, -1.0, v.x1),
        x2: float::mul_add(0.01, 0.0, v.x2),
    }
}

// Each of the first half of the vectors has its neighbour in the second.
#[tactic(auto, using(crate::proofs::RenewedVectors::doubled_more), unfolding(crate::specs::Clusters::doubled))]
fn double(vs: &mut [Vec3])
    ensures { vs.new ≡ Clusters.doubled vs.old (length vs.old / 2) (length vs.old / 2) }
{
    let half = vs.len() / 2;
    // Stays: by place, since with split_at_mut and zip of its halves the proof did not close.
    for i in 0..half {
        vs[half + i] = beside(vs[i]);
    }
}

// From the first half of the vectors to all of them, with two rounds.
#[tactic(auto, unfolding(crate::specs::Clusters::grown))]
fn grow(vs: &mut [Vec3], records: &Records)
    requires { (length vs.old ≤ 8) × (length vs.old % 2 ≡ 0) }
    ensures { vs.new ≡ Clusters.grown vs.old (length vs.old / 2) records.now }
{
    double(vs);
    filter_round(vs, records);
    filter_round(vs, records);
}

// The eight vectors of some records: one, grown three times.
#[tactic(auto, unfolding(crate::specs::Clusters::vectors, crate::specs::Clusters::none))]
pub(crate) fn vectors(records: &Records) -> [Vec3; 8]
    ensures { result ≡ Clusters.vectors records.now }
{
    let mut vs = [Vec3::default(); 8];
    vs[0] = with_one(first_vector(records));
    grow(&mut vs[..2], records);
    grow(&mut vs[..4], records);
    grow(&mut vs, records);
    vs
}
