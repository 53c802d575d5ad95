// Joining two blocks' bytes.
ghost use Rattle.std.specs.Prelude.{◌≡◌, ◌+◌, ◌≤◌, ltb, length};
ghost use Rattle.std.proofs.lemmas.List.Edits.{sets};

// Whether an output of `room` bytes is shorter than two parts together.
pub(crate) fn shorter(room: usize, first: usize, second: usize) -> bool
    ensures { result ≡ ltb room (first + second) }
{
    let short = room < first;
    short || room - first < second
}

// The bytes of `source`, written to the output from `to` on. It is internal: crate dsp calls it.
// Stays: by place, since the library's copy_from_slice calls memmove, and C is told that the archive needs memcpy and memset alone.
pub fn copy(source: &[u8], out: &mut [u8], to: usize)
    requires { to + length source.now ≤ length out.old }
    ensures { out.new ≡ sets out.old to source.now }
{
    for (j, place) in out[to..to + source.len()].iter_mut().enumerate() {
        *place = source[j];
    }
}
