// What the crates of the codec share: whole-number helpers (clamping to 16 bits, division towards zero, arithmetic shift), two samples of history, what a frame has, and the most samples of a recording.
#![tactic(auto)]

ghost use Rattle.std.specs.Prelude.{◌≡◌, ℕ};
ghost use Rattle.whole.specs.Whole.{clamp16, towards_zero, floored};

// The samples of a frame.
pub const SAMPLES_PER_FRAME: usize = 14;

// The bytes of a frame: its header, and seven of nibbles.
pub const BYTES_PER_FRAME: usize = 8;

// The most samples of a recording.
pub const MOST_SAMPLES: u32 = 14_680_064;

// The newest sample and the one before it.
#[repr(C)]
#[derive(Clone, Copy, Default, PartialEq, Eq)]
pub struct History {
    pub newest: i16,
    pub older: i16,
}

// Why a call is refused: a number of documents 01 and 02, and the block that it names.
// Stays: numbers, and 0 for no block, since documents 01 and 02 number the refusals and C takes both so.
pub trait Reason {
    ghost number: { Self → ℕ };

    // 0 where no block is named.
    ghost named: { Self → ℕ };

    fn code(self) -> u32
        ensures { result ≡ number self };

    // Stays: each impl says that it names no block, since a default body cannot hold of a `named` that an impl chooses.
    fn bad_block(self) -> u32
        ensures { result ≡ named self };
}

// x, or the nearer end of -32768..32767.
pub fn clamp_i16(x: i64) -> i16
    ensures { result ≡ clamp16 x }
{
    x.clamp(-32768, 32767) as i16
}

// x / 2048, rounded towards zero.
pub fn quotient_2048(x: i32) -> i32
    ensures { result ≡ towards_zero x 2048 }
{
    x / 2048
}

// x / 2048, rounded down: an arithmetic shift by 11.
pub fn shift_11(x: i64) -> i64
    ensures { result ≡ floored x 2048 }
{
    x >> 11
}
