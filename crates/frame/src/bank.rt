// Eight pairs of coefficients.
ghost use Rattle.std.specs.Prelude.{◌≡◌, ◌<◌};
ghost use Rattle.frame.specs.Choice.{AllBounded, c0_at, c1_at};

use crate::pair::Pair;

// c0 and c1 of each pair in turn, every pair within the limit of code 7.
#[derive(Drop)]
pub(crate) struct Bank {
    pub coefficients: [i16; 16],
    ghost bounded: { AllBounded coefficients },
}

impl Bank {
    // Pair k.
    pub(crate) fn pair(&self, k: usize) -> Pair
        requires { k < 8 }
        ensures first { result.c0 ≡ c0_at self.now.coefficients k }
        ensures second { result.c1 ≡ c1_at self.now.coefficients k }
    {
        Pair {
            c0: self.coefficients[2 * k],
            c1: self.coefficients[2 * k + 1],
        }
    }
}
