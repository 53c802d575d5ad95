// The record of a frame.
ghost use Rattle.std.specs.Prelude.{◌≡◌, ◌+◌, ◌*◌, ◌<◌, length};
ghost use Rattle.coefficients.specs.FrameRecord as FrameRecord;
ghost use Rattle.coefficients.specs.inner.KeptRecord.{Kept};

use crate::merging::{Record, finish_record};
use crate::ranges::{analyze_ranges, bidirectional_filter, quadratic_merge};
use crate::sums::{inner_product_merge, outer_product_merge};

// The record of a frame with its history, if it has one.
#[tactic(auto, unfolding(crate::specs::FrameRecord::analyse, crate::specs::FrameRecord::ranged, crate::specs::FrameRecord::merged))]
pub(crate) fn analyse(h: &[i16; 28]) -> Option<Record>
    ensures { result ≡ FrameRecord.analyse h.now }
{
    let v = inner_product_merge(h);
    if float::abs(v.x0) > 10.0 {
        let ranges = analyze_ranges(outer_product_merge(h))?;
        let merged = quadratic_merge(bidirectional_filter(ranges, v))?;
        return Some(finish_record(merged.v1, merged.v2));
    }
    None
}

// The record of a frame, if it has one, goes to place r. The answer is the count after it.
#[tactic(auto, unfolding(crate::specs::FrameRecord::stored, crate::specs::FrameRecord::counted))]
pub(crate) fn process_frame(h: &[i16; 28], s: &mut [f64], r: usize) -> usize
    requires { 2 * r + 1 < length s.old }
    ensures { Kept s.old r (FrameRecord.analyse h.now) result s.new }
{
    match analyse(h) {
        Some(record) => {
            crate::store::write_record(s, r, record);
            r + 1
        }
        None => r,
    }
}
