// The lent store of records.
ghost use Rattle.std.specs.Prelude.{◌≡◌, ◌+◌, ◌*◌, ◌<◌, ◌≤◌, length, slice_index_or};
ghost use Rattle.coefficients.specs.Store as Store;
ghost use Rattle.coefficients.specs.Store.{records, blank_record};

use crate::merging::{Record, Vec3, merge_finish_record, record_terms};
use std::marker::Model;

// The first records of a store, in order: two numbers each. A clause sees their list.
// Stays: a count beside the numbers, since C lends a store for more records than there are (`records` in specs/Store.antt).
#[derive(Drop)]
pub(crate) struct Records<'a> {
    numbers: &'a [f64],
    count: usize,
}

impl<'a> Model for Records<'a> {
    ghost use Rattle.std.specs.Prelude.{List, ◌*◌, ◌≤◌, length};
    ghost use Rattle.coefficients.specs.declared.merging.Record.{Record};
    ghost use Rattle.coefficients.specs.Store.{records};

    ghost Value = { List Record };

    ghost view = { λ s. records s.numbers.now s.count };

    ghost invariant = { λ s. (2 * s.count ≤ length s.numbers.now) × (s.count ≤ 1048576) };
}

impl<'a> Records<'a> {
    // The first records of a store.
    pub(crate) fn new(numbers: &'a [f64], count: usize) -> Records<'a>
        requires { (2 * count ≤ length numbers.now) × (count ≤ 1048576) }
        ensures { result ≡ records numbers.now count }
    {
        Records { numbers, count }
    }

    // How many there are.
    #[tactic(auto, using(crate::proofs::StoredRecords::of_store))]
    pub(crate) fn len(&self) -> usize
        ensures count { result ≡ length self.now }
        ensures few { result ≤ 1048576 }
    {
        self.count
    }

    // The record at place k.
    #[tactic(auto, using(crate::proofs::StoredRecords::of_store), unfolding(crate::specs::Store::read_record))]
    pub(crate) fn get(&self, k: usize) -> Record
        requires { k < length self.now }
        ensures { result ≡ slice_index_or self.now k blank_record }
    {
        let numbers = self.numbers;
        let at = 2 * k;
        Record {
            v1: numbers[at],
            v2: numbers[at + 1],
        }
    }
}

// The record r goes to place k.
#[tactic(auto, unfolding(crate::specs::Store::write_record))]
pub(crate) fn write_record(s: &mut [f64], k: usize, r: Record)
    requires { 2 * k + 1 < length s.old }
    ensures { s.new ≡ Store.write_record s.old k r }
{
    let at = 2 * k;
    s[at] = r.v1;
    s[at + 1] = r.v2;
}

// What matrix_filter makes of a record, added.
fn add_filtered(a: Vec3, r: Record) -> Vec3
    ensures { result ≡ Store.add_filtered a r }
{
    let d = record_terms(r);
    Vec3 {
        x0: a.x0,
        x1: a.x1 + d.d1,
        x2: a.x2 + d.d2,
    }
}

// The sums of what matrix_filter makes of each record.
pub(crate) fn totals(records: &Records) -> Vec3
    ensures { result ≡ Store.totals records.now }
{
    let mut sums = Vec3 {
        x0: 1.0,
        x1: 0.0,
        x2: 0.0,
    };
    for k in 0..records.len() {
        sums = add_filtered(sums, records.get(k));
    }
    sums
}

// Their mean, finished.
#[tactic(auto, unfolding(crate::specs::Store::first_vector))]
pub(crate) fn first_vector(records: &Records) -> Record
    ensures { result ≡ Store.first_vector records.now }
{
    let sums = totals(records);
    let count = records.len() as f64;
    merge_finish_record(Vec3 {
        x0: sums.x0,
        x1: sums.x1 / count,
        x2: sums.x2 / count,
    })
}
