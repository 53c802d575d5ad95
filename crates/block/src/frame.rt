// The samples of one frame.
ghost use Rattle.std.specs.Prelude.{◌≡◌, ◌+◌, ◌*◌, ◌≤◌, length};
ghost use Rattle.block.specs.inner.Nibbles.{play_nibbles};

use crate::sample::Filter;
use whole::History;

impl Filter {
    // The samples of whole bytes, two a byte.
    // Stays: bytes, history and out are three arguments, here and below, since each call is lent another stretch of the bytes and of the output.
    fn play_pairs(self, bytes: &[u8], history: History, out: &mut [i16]) -> History
        requires { length out.old ≡ 2 * length bytes.now }
        ensures left { result ≡ (play_nibbles bytes.now 0 (length out.old) self.c0 self.c1 self.scale history).history }
        ensures stored { out.new ≡ (play_nibbles bytes.now 0 (length out.old) self.c0 self.c1 self.scale history).samples }
    {
        let mut history = history;
        // Stays: the output by place, since with chunks_exact_mut(2) zipped with the bytes the proof did not close.
        for (j, byte) in bytes.iter().enumerate() {
            let first = self.advance(history, byte / 16);
            history = self.advance(first, byte % 16);
            out[2 * j] = first.newest;
            out[2 * j + 1] = history.newest;
        }
        history
    }

    // The samples of as many nibbles as the output has room for, from the first byte on.
    fn play_nibbles(self, bytes: &[u8], history: History, out: &mut [i16]) -> History
        requires { length out.old ≤ 2 * length bytes.now }
        ensures left { result ≡ (play_nibbles bytes.now 0 (length out.old) self.c0 self.c1 self.scale history).history }
        ensures stored { out.new ≡ (play_nibbles bytes.now 0 (length out.old) self.c0 self.c1 self.scale history).samples }
    {
        let count = out.len();
        let pairs = count / 2;
        let after = self.play_pairs(&bytes[..pairs], history, &mut out[..2 * pairs]);
        if count % 2 == 0 {
            return after;
        }
        let last = self.advance(after, bytes[pairs] / 16);
        out[count - 1] = last.newest;
        last
    }

    // The samples of as many nibbles as the output has room for, from an address on, which may be that of a byte's low nibble.
    pub(crate) fn play_from_nibble(
        self,
        bytes: &[u8],
        from: usize,
        history: History,
        out: &mut [i16],
    ) -> History
        requires { from + length out.old ≤ 2 * length bytes.now }
        ensures left { result ≡ (play_nibbles bytes.now from (length out.old) self.c0 self.c1 self.scale history).history }
        ensures stored { out.new ≡ (play_nibbles bytes.now from (length out.old) self.c0 self.c1 self.scale history).samples }
    {
        if from % 2 == 0 {
            return self.play_nibbles(&bytes[from / 2..], history, out);
        }
        if out.is_empty() {
            return history;
        }
        let low = self.advance(history, bytes[from / 2] % 16);
        out[0] = low.newest;
        self.play_nibbles(&bytes[from / 2 + 1..], low, &mut out[1..])
    }
}
