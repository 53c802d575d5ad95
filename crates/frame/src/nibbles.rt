// Nibbles to bytes.
ghost use Rattle.std.specs.Prelude.{◌≡◌, ℕ, ◌<◌, pos, get_or};
ghost use Rattle.frame.specs.Frame.{low_four, pack_frame};
ghost use Rattle.frame.specs.inner.Nibbles.{InNibble};

// The four bits of a nibble.
// Stays: InNibble is asked, here and where nibbles are packed and finished, and is no type's, since a nibble is an i8 in Pass and an
// i16 in Seen.
fn low_four(n: i8) -> u8
    requires { InNibble n }
    ensures bits { result ≡ low_four n }
    ensures small { result < 16 }
{
    n.cast_unsigned() % 16
}

// The header and seven bytes, high nibble first.
pub(crate) fn pack_frame(header: u8, nibbles: [i8; 14]) -> [u8; 8]
    requires { (k : ℕ) → k < 14 → InNibble (get_or nibbles k (pos 0)) }
    ensures { result ≡ pack_frame header nibbles 7 }
{
    let mut out = [0u8; 8];
    out[0] = header;
    // Stays: by place, since with chunks zipped with the bytes the proof did not close.
    for k in 0..7 {
        let hi = low_four(nibbles[2 * k]);
        let lo = low_four(nibbles[2 * k + 1]);
        out[k + 1] = hi * 16 + lo;
    }
    out
}
