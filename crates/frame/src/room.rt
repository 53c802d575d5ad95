// Room for a quick pass.
ghost use Rattle.std.specs.Prelude.{◌≡◌};
ghost use Rattle.frame.specs.inner.Quick.{Spare};

// For each of sixteen places, the last two of no sample, D raised by half a step and eight steps, and the reconstructed sample.
// Stays: two arrays of sixteen, since `show` goes over them by lanes (docs/PROVING.md, "Fast forms").
#[derive(Drop)]
pub(crate) struct Room {
    pub w: [i32; 16],
    pub s: [i16; 16],
    ghost spare: { Spare w s },
}

impl Room {
    // Room that no pass has written to.
    pub(crate) fn new() -> Room {
        Room {
            w: [1024; 16],
            s: [0; 16],
        }
    }
}
