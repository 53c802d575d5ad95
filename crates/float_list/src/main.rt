// Replays a list of answers of the Rust's f64 methods. A line of the input is a letter (m mul_add, a abs, x max, n min, r round)
// and three operands, each 16 hexadecimal digits of a pattern, those that the function does not take zero. A line of the
// output is the answer's pattern, one and the same for every NaN.
#![tactic(auto)]

use replay::{Number, Replay, replay_lines};
use std::io::{self, Write};
use std::num::{f64_from_bits_with_nan, f64_to_bits_with_nan};

// A function of the list.
enum Function {
    MulAdd,
    Abs,
    Max,
    Min,
    Round,
}

impl From<u8> for Function {
    fn from(letter: u8) -> Function {
        match letter {
            b'm' => Function::MulAdd,
            b'a' => Function::Abs,
            b'x' => Function::Max,
            b'n' => Function::Min,
            _ => Function::Round,
        }
    }
}

impl Function {
    // Its answer.
    fn answer(self, a: f64, b: f64, c: f64) -> f64 {
        match self {
            Function::MulAdd => float::mul_add(a, b, c),
            Function::Abs => float::abs(a),
            Function::Max => float::max(a, b),
            Function::Min => float::min(a, b),
            Function::Round => float::round(a),
        }
    }
}

// The list of answers.
#[derive(Drop)]
struct Answers;

impl Replay<53> for Answers {
    fn replay(&mut self, writer: &mut impl Write, line: &[u8; 53]) -> io::Result<()> {
        let a = f64_from_bits_with_nan(u64::read(line, 2));
        let b = f64_from_bits_with_nan(u64::read(line, 19));
        let c = f64_from_bits_with_nan(u64::read(line, 36));
        let answer = Function::from(line[0]).answer(a, b, c);
        writeln!(writer, "{:016x}", f64_to_bits_with_nan(answer))
    }
}

// Replays every line of the input.
fn main(rt: HostRuntime) -> io::Result<()> {
    replay_lines(&rt, &mut Answers, 1_000_000)
}
