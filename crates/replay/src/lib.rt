// What the replay programs share: numbers in hexadecimal digits of lower case, read from a line and written to the output.
#![tactic(auto)]

pub mod buffers;

ghost use Rattle.std.specs.Prelude.{◌≡◌, ◌+◌, ◌-◌, ◌*◌, ◌≤◌, ◌<◌, ℕ, ℤ, List, [], ◌++◌, length, take};
ghost use Rattle.whole.specs.Outcome.{answered, outcome_code, outcome_entry};
ghost use Rattle.replay.specs.Digits.{digit, byte, word, double_word, quad_word, sample_at, history_at, numbers_at};

use std::fmt::{self, Display, Formatter, HasDigits, Radix};
use std::io::{self, BufReader, BufWriter, ErrorKind, Read, Write};
use std::marker::Model;
use whole::{History, Reason};

// internal: the number of a hexadecimal digit: 0 to 9 for the characters 48 to 57, 10 to 15 for the characters 97 to 102.
// Stays: every character has a number here (specs/Digits.antt), and from_str_radix refuses those that are no digits.
#[tactic(auto, using(std::proofs::lemmas::Bool::Decides::nat_tests), unfolding(crate::specs::Digits::digit))]
pub fn digit(c: u8) -> u8
    ensures value { result ≡ digit c }
    ensures below { result < 16 }
    ensures figure { (48 ≤ c) → (c ≤ 57) → result + 48 ≡ c }
    ensures letter { (97 ≤ c) → (c ≤ 102) → result + 87 ≡ c }
{
    if c < 58 { c % 16 } else { (c % 16 + 9) % 16 }
}

// A number that a line has in hexadecimal digits, the first digit highest.
pub trait Number: Copy + Default {
    // How many digits it has.
    const DIGITS: usize;

    ghost DIGITS: { ℕ };

    ghost number_at: { List ℕ → ℕ → Self };

    // internal: the number of the digits from a place on.
    fn read(line: &[u8], at: usize) -> Self
        requires { at + DIGITS ≤ length line.now }
        ensures { result ≡ number_at line.now at };
}

impl Number for u8 {
    const DIGITS: usize = 2;

    ghost DIGITS = { 2 };

    ghost number_at = { byte };

    fn read(line: &[u8], at: usize) -> u8 {
        digit(line[at]) * 16 + digit(line[at + 1])
    }
}

impl Number for u16 {
    const DIGITS: usize = 4;

    ghost DIGITS = { 4 };

    ghost number_at = { word };

    fn read(line: &[u8], at: usize) -> u16 {
        u16::from_be_bytes(numbers(line, at))
    }
}

impl Number for u32 {
    const DIGITS: usize = 8;

    ghost DIGITS = { 8 };

    ghost number_at = { double_word };

    fn read(line: &[u8], at: usize) -> u32 {
        u32::from_be_bytes(numbers(line, at))
    }
}

impl Number for u64 {
    const DIGITS: usize = 16;

    ghost DIGITS = { 16 };

    ghost number_at = { quad_word };

    fn read(line: &[u8], at: usize) -> u64 {
        u64::from_be_bytes(numbers(line, at))
    }
}

impl Number for i16 {
    const DIGITS: usize = 4;

    ghost DIGITS = { 4 };

    ghost number_at = { sample_at };

    fn read(line: &[u8], at: usize) -> i16 {
        i16::from_be_bytes(numbers(line, at))
    }
}

// Two samples, the newest first.
impl Number for History {
    const DIGITS: usize = 8;

    ghost DIGITS = { 8 };

    ghost number_at = { history_at };

    fn read(line: &[u8], at: usize) -> History {
        History {
            newest: i16::read(line, at),
            older: i16::read(line, at + 4),
        }
    }
}

// internal: reads as many numbers as there is room for, one after the other, from a place on.
#[tactic(auto, using(crate::proofs::Places::place_within))]
pub fn read_numbers<T: Number>(line: &[u8], at: usize, numbers: &mut [T])
    requires { at + T.DIGITS * length numbers.old ≤ length line.now }
    ensures { numbers.new ≡ numbers_at T.number_at T.DIGITS line.now at (length numbers.old) }
{
    for (i, number) in numbers.iter_mut().enumerate() {
        *number = T::read(line, at + T::DIGITS * i);
    }
}

// internal: the numbers of the digits from a place on, one after the other.
pub fn numbers<T: Number, const N: usize>(line: &[u8], at: usize) -> [T; N]
    requires { at + T.DIGITS * N ≤ length line.now }
    ensures { result ≡ numbers_at T.number_at T.DIGITS line.now at N }
{
    let mut numbers = [T::default(); N];
    read_numbers(line, at, &mut numbers);
    numbers
}

// Samples that wait to be taken together, N at the most.
// Stays: arrayvec refuses a slice that does not fit as a whole; here the rest is left out, so a type around it would be as long.
#[derive(Drop)]
pub struct Piece<const N: usize> {
    samples: [i16; N],
    count: usize,
}

impl<const N: usize> Model for Piece<N> {
    ghost Value = { List ℤ };

    ghost view = { λ p. take p.count p.samples };

    ghost invariant = { λ p. p.count ≤ N };
}

impl<const N: usize> Piece<N> {
    // A piece of no samples.
    pub fn new() -> Self
        ensures { result ≡ [] }
    {
        Piece {
            samples: [0; N],
            count: 0,
        }
    }

    // The samples.
    pub fn as_slice(&self) -> &[i16]
        ensures { result.now ≡ self.now }
    {
        &self.samples[..self.count]
    }

    // Leaves no samples.
    pub fn clear(&mut self)
        ensures { self.new ≡ [] }
    {
        self.count = 0;
    }

    // internal: adds `count` samples that a line has from a place on; those for which there is no room are left out.
    pub fn add_read(&mut self, line: &[u8], at: usize, count: usize)
        requires { at + 4 * count ≤ length line.now }
        ensures { self.new ≡ take N (self.old ++ numbers_at sample_at 4 line.now at count) }
    {
        let added = (N - self.count).min(count);
        let end = self.count + added;
        let all = &mut self.samples[..];
        read_numbers(line, at, &mut all[self.count..end]);
        self.count += added;
    }

    // Adds samples; those for which there is no room are left out.
    pub fn add(&mut self, samples: &[i16])
        ensures { self.new ≡ take N (self.old ++ samples.now) }
    {
        let added = (N - self.count).min(samples.len());
        let end = self.count + added;
        let all = &mut self.samples[..];
        all[self.count..end].copy_from_slice(&samples[..added]);
        self.count = end;
    }
}

// The number of a call's refusal and the block that it names; zeros where the call is accepted.
// Stays: doilycairn's code_of and entry_of tell the two apart, since five of C's structs have no entry; this gives both to programs, which do not know doilycairn.
pub fn told<T, R: Reason + Copy>(answer: &Result<T, R>) -> (u32, u32)
    ensures code { result.0 ≡ outcome_code (answered R.number R.named answer.now) }
    ensures block { result.1 ≡ outcome_entry (answered R.number R.named answer.now) }
{
    match answer {
        Ok(_) => (0, 0),
        Err(why) => (why.code(), why.bad_block()),
    }
}

// Reads a line into the place of another, and tells whether the input has all of it.
fn next_line<const N: usize>(reader: &mut impl Read, line: &mut [u8; N]) -> io::Result<bool> {
    match reader.read_exact(line) {
        Ok(()) => Ok(true),
        Err(error) if error.kind() == ErrorKind::UnexpectedEof => Ok(false),
        Err(error) => Err(error),
    }
}

// internal: reads a line, where the input has all of it.
pub fn read_line<const N: usize>(reader: &mut impl Read) -> io::Result<Option<[u8; N]>> {
    let mut line = [0; N];
    Ok(next_line(reader, &mut line)?.then_some(line))
}

// What is done with each line, which has N bytes.
pub trait Replay<const N: usize> {
    // internal: replays a line.
    fn replay(&mut self, writer: &mut impl Write, line: &[u8; N]) -> io::Result<()>;
}

// internal: replays line after line of the input, at the most as many as `most` says.
pub fn replay_lines<const N: usize>(
    rt: &HostRuntime,
    state: &mut impl Replay<N>,
    most: u32,
) -> io::Result<()>
    requires { N < 9223372036854775808 }
{
    let mut reader = BufReader::new(rt.alloc(), rt.reader())?;
    let mut writer = BufWriter::new(rt.alloc(), io::writer(rt))?;
    // One line for all, since a new one for each is filled with zeros and copied.
    let mut line = [0; N];
    for _ in 0..most {
        if !next_line(&mut reader, &mut line)? {
            break;
        }
        state.replay(&mut writer, &line)?;
    }
    writer.flush()
}

// How many characters go to the output together: one call of the formatter for each number takes ten times as long.
const TEXT: usize = 128;

// internal: the character of a digit.
// Stays: char::from_digit gives an Option of a char, which a text of bytes would have to be made of once more.
pub fn glyph(d: u8) -> u8
    requires { d < 16 }
    ensures figure { (d < 10) → result ≡ d + 48 }
    ensures letter { (10 ≤ d) → result ≡ d + 87 }
{
    if d < 10 { 48 + d } else { 87 + d }
}

// Puts the lowest digits of a number, as many as there is room for, the highest first.
fn put_digits(text: &mut [u8], number: u64) {
    let mut rest = number;
    for place in text.iter_mut().rev() {
        *place = glyph((rest % 16) as u8);
        rest /= 16;
    }
}

// Writes characters.
fn write_text<W: fmt::Write>(f: &mut Formatter<W>, text: &[u8]) -> fmt::Result {
    match str::from_utf8(text) {
        Ok(text) => f.write_str(text),
        Err(_) => Err(fmt::Error),
    }
}

// Numbers as a line has them, with nothing between them.
#[derive(Drop)]
pub struct Digits<'a, T>(pub &'a [T]);

impl<T: Number + Radix> Display for Digits<'_, T> {
    fn fmt<W: fmt::Write>(&self, f: &mut Formatter<W>) -> fmt::Result {
        let mut text = [0u8; TEXT];
        let mut used: usize = 0;
        for number in self.0 {
            if TEXT - used < T::DIGITS {
                write_text(f, &text[..used])?;
                used = 0;
            }
            let (_, pattern) = number.bits();
            let all = &mut text[used..];
            match all.get_mut(..T::DIGITS) {
                Some(place) => {
                    put_digits(place, pattern);
                    used += T::DIGITS;
                }
                None => write!(f, "{number:0width$x}", width = T::DIGITS)?,
            }
        }
        write_text(f, &text[..used])
    }
}

// Two samples, the newest first, with nothing between them.
#[derive(Drop)]
pub struct HistoryDigits(pub History);

impl Display for HistoryDigits {
    fn fmt<W: fmt::Write>(&self, f: &mut Formatter<W>) -> fmt::Result {
        let History { newest, older } = self.0;
        Digits(&[newest, older]).fmt(f)
    }
}
