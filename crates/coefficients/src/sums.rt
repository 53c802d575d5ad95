// Whole sums of products of samples.
ghost use Rattle.std.specs.Prelude.{◌≡◌, ◌≤◌};
ghost use Rattle.coefficients.specs.Sums as Sums;
ghost use Rattle.coefficients.specs.inner.SmallSums.{Dot};

use crate::merging::Vec3;
use crate::ranges::Mat2;
use whole::SAMPLES_PER_FRAME;

// The sum of fourteen products of samples, one from a, the other from b places earlier.
pub(crate) fn dot(h: &[i16; 28], a: usize, b: usize) -> i64
    requires { (a ≤ 2) × (b ≤ 2) }
    ensures { Dot h.now a b result }
{
    let mut sum: i64 = 0;
    // Stays: by place; zipped, each slice would name both of its ends (14 - a to 28 - a, 14 - b to 28 - b).
    for k in 0..SAMPLES_PER_FRAME {
        sum += i64::from(h[SAMPLES_PER_FRAME + k - a]) * i64::from(h[SAMPLES_PER_FRAME + k - b]);
    }
    sum
}

// The negated products of the frame with itself and with one and two samples earlier.
#[tactic(auto, unfolding(crate::specs::Sums::inner_product_merge, crate::specs::Sums::neg_lag))]
pub(crate) fn inner_product_merge(h: &[i16; 28]) -> Vec3
    ensures { result ≡ Sums.inner_product_merge h.now }
{
    Vec3 {
        x0: -dot(h, 0, 0) as f64,
        x1: -dot(h, 1, 0) as f64,
        x2: -dot(h, 2, 0) as f64,
    }
}

// The products of one and two samples earlier.
#[tactic(auto, unfolding(crate::specs::Sums::outer_product_merge, crate::specs::Sums::lag))]
pub(crate) fn outer_product_merge(h: &[i16; 28]) -> Mat2
    ensures { result ≡ Sums.outer_product_merge h.now }
{
    Mat2 {
        a11: dot(h, 1, 1) as f64,
        a12: dot(h, 1, 2) as f64,
        a21: dot(h, 2, 1) as f64,
        a22: dot(h, 2, 2) as f64,
    }
}
