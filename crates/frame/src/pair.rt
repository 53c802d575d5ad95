// A pair of coefficients.
ghost use Rattle.std.specs.Prelude.{◌≡◌, ◌+◌, nat_abs};
ghost use Rattle.frame.specs.Estimate.{weigh};
ghost use Rattle.frame.specs.Pass.{Bounded};
ghost use Rattle.frame.specs.inner.Quick.{is_roomy};

// c0 weighs the newest sample, c1 the one before it.
#[derive(Clone, Copy)]
pub(crate) struct Pair {
    pub c0: i16,
    pub c1: i16,
    ghost bounded: { Bounded c0 c1 },
}

impl Pair {
    // c0 * previous + c1 * before.
    pub(crate) fn weigh(self, previous: i16, before: i16) -> i32
        ensures { result ≡ weigh self.c0 self.c1 previous before }
    {
        i32::from(self.c0) * i32::from(previous) + i32::from(self.c1) * i32::from(before)
    }

    // Whether the magnitudes add up to 57344 at most: a quick pass then has room.
    pub(crate) fn is_roomy(self) -> bool
        ensures { result ≡ is_roomy self.c0 self.c1 }
    {
        magnitudes(self.c0, self.c1) <= 57344
    }
}

// |a| + |b|.
pub(crate) fn magnitudes(a: i16, b: i16) -> u32
    ensures { result ≡ nat_abs a + nat_abs b }
{
    u32::from(a.unsigned_abs()) + u32::from(b.unsigned_abs())
}
