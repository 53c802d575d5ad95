// The exponent of a pass.
ghost use Rattle.std.specs.Prelude.{◌≡◌, ◌+◌, ◌<◌, ◌≤◌};

// A step of a pass is 2048 * 2^value.
#[derive(Clone, Copy)]
pub(crate) struct Exponent {
    pub value: u8,
    ghost most: { value ≤ 12 },
}

impl Exponent {
    // The exponent above this one.
    pub(crate) fn next(self) -> Exponent
        requires { self.value < 12 }
        ensures { result.value ≡ self.value + 1 }
    {
        Exponent {
            value: self.value + 1,
        }
    }
}
