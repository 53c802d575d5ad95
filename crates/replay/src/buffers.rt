// The buffers that calls are lent.
ghost use Rattle.std.specs.Prelude.{◌≡◌, ◌+◌, ◌*◌, ◌≤◌, length};
ghost use Rattle.replay.specs.Buffers.{filled, digest, put};

use crate::{Number, read_numbers};

// Makes byte i of a buffer i modulo 251.
pub fn fill(buffer: &mut [u8])
    ensures { buffer.new ≡ filled (length buffer.old) }
{
    for (i, byte) in buffer.iter_mut().enumerate() {
        *byte = (i % 251) as u8;
    }
}

// internal: puts bytes of a line into a buffer: their place and how many there are stand before them, at most `MOST`.
pub fn put<const MOST: usize>(line: &[u8], buffer: &mut [u8])
    requires { (7 + 2 * MOST ≤ length line.now) × (MOST ≤ length buffer.old) }
    ensures { buffer.new ≡ put MOST line.now buffer.old }
{
    let count = usize::from(u8::read(line, 5)).min(MOST);
    let start = usize::from(u16::read(line, 1)).min(buffer.len() - MOST);
    read_numbers(line, 7, &mut buffer[start..start + count]);
}

// Bytes as the digits of a number, modulo a prime.
#[tactic(auto, unfolding(crate::specs::Buffers::digest))]
pub fn digest(bytes: &[u8]) -> u64
    ensures { result ≡ digest bytes.now }
{
    let mut sum: u64 = 0;
    for byte in bytes {
        sum = (sum * 1_000_003 + u64::from(*byte) + 1) % 1_099_511_627_689;
    }
    sum
}
