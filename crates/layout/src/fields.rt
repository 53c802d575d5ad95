// Big-endian fields of an image.
ghost use Rattle.std.specs.Prelude.{◌≡◌, ◌+◌, ◌≤◌, ◌<◌, length, take, drop, replicate};
ghost use Rattle.std.proofs.lemmas.List.Edits.{sets};
ghost use Rattle.layout.specs.Fields.{be16, be32, at16, at32};

// Bytes go to a place.
fn put(buf: &mut [u8], at: usize, bytes: &[u8])
    requires { at + length bytes.now ≤ length buf.old }
    ensures { buf.new ≡ sets buf.old at bytes.now }
{
    buf[at..at + bytes.len()].copy_from_slice(bytes);
}

// Stays: the functions of two widths, here and below, are a line each over the library's bytes of a number; a trait for the two is longer.
// internal: two bytes of a number, the high one first.
pub fn put16(buf: &mut [u8], at: usize, v: u16)
    requires { at + 2 ≤ length buf.old }
    ensures { buf.new ≡ sets buf.old at (be16 v) }
{
    put(buf, at, &v.to_be_bytes());
}

// internal: four bytes of a number, the highest first.
pub fn put32(buf: &mut [u8], at: usize, v: u32)
    requires { at + 4 ≤ length buf.old }
    ensures { buf.new ≡ sets buf.old at (be32 v) }
{
    put(buf, at, &v.to_be_bytes());
}

// The number that two bytes are. It is internal: crate image calls it.
// Stays: it gives what it reads in 32 bits, since its callers compare it with numbers of 32 bits.
pub fn get16(buf: &[u8], at: usize) -> u32
    requires { at + 2 ≤ length buf.now }
    ensures { result ≡ at16 buf.now at }
{
    u16::from_be_bytes([buf[at], buf[at + 1]]).into()
}

// The number that four bytes are. It is internal: crate image calls it.
pub fn get32(buf: &[u8], at: usize) -> u32
    requires { at + 4 ≤ length buf.now }
    ensures { result ≡ at32 buf.now at }
{
    u32::from_be_bytes([buf[at], buf[at + 1], buf[at + 2], buf[at + 3]])
}

// internal: zeros from a place on, n of them.
pub fn zeros(buf: &mut [u8], at: usize, n: usize)
    requires { at + n ≤ length buf.old }
    ensures { buf.new ≡ sets buf.old at (replicate n 0) }
{
    buf[at..at + n].fill(0);
}
