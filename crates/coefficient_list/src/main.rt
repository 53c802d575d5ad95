// Replays a list of clips of which the Rust's records and coefficients are known. A line of the input is a letter, a count of 0 to 14
// in two decimal digits, and fourteen samples, each four hexadecimal digits of its pattern, those above the count zero.
// n starts a new clip, b adds the samples to the piece that is to come, m does the same and measures that piece, a asks for the
// coefficients. A line of the output is what an asking gives: the number of records, with the one of the frame that is filled up;
// each record's two patterns, one and the same for every NaN; the sixteen coefficients' patterns. A refusal writes its number.
#![tactic(auto)]

use coefficients::{CoefficientCalculator, Refusal};
use replay::{Digits, Piece, Replay, digit, replay_lines};
use std::io::{self, Write};
use std::num::f64_to_bits_with_nan;
use whole::Reason;

// A number that no record has.
// Stays: a mark in the store and no Option, since finish answers the coefficients and not whether it wrote one record more.
const NO_RECORD: f64 = 1.0e300;

// What a line asks for.
enum Step {
    Start,
    Add,
    Measure,
    Ask,
}

impl From<u8> for Step {
    fn from(letter: u8) -> Step {
        match letter {
            b'n' => Step::Start,
            b'm' => Step::Measure,
            b'a' => Step::Ask,
            _ => Step::Add,
        }
    }
}

// The measuring state, its store, and the samples of the piece that is to come.
#[derive(Drop)]
struct State {
    calculator: CoefficientCalculator,
    store: [f64; 128],
    piece: Piece<1024>,
}

// Writes the number of a refusal.
fn write_refusal(writer: &mut impl Write, why: Refusal) -> io::Result<()> {
    writeln!(writer, "refused {}", why.code())
}

// Writes the first records of the store.
fn write_records(writer: &mut impl Write, store: &[f64; 128], n: usize) -> io::Result<()> {
    for record in store.chunks_exact(2).take(n) {
        let first = f64_to_bits_with_nan(record[0]);
        let second = f64_to_bits_with_nan(record[1]);
        write!(writer, " {first:016x}{second:016x}")?;
    }
    Ok(())
}

impl State {
    // A new clip.
    fn start(&mut self) {
        self.calculator = CoefficientCalculator::new();
        self.piece.clear();
    }

    // Adds the samples of a line to the piece.
    fn add(&mut self, line: &[u8; 60]) {
        let count = usize::from(digit(line[1]) * 10 + digit(line[2])).min(14);
        self.piece.add_read(line, 3, count);
    }

    // Measures the piece, after which the next one is empty.
    fn measure(&mut self, writer: &mut impl Write) -> io::Result<()> {
        match self
            .calculator
            .process(self.piece.as_slice(), &mut self.store)
        {
            Ok(next) => self.calculator = next,
            Err(why) => write_refusal(writer, why)?,
        }
        self.piece.clear();
        Ok(())
    }

    // Asks for the coefficients and writes them, after the records, with that of the frame that is filled up if its place is written.
    fn ask(&mut self, writer: &mut impl Write) -> io::Result<()> {
        let measured = self.calculator.records as usize;
        if let Some(place) = self.store.get_mut(2 * measured) {
            *place = NO_RECORD;
        }
        match self.calculator.finish(&mut self.store) {
            Ok(coefficients) => {
                let filled = self
                    .store
                    .get(2 * measured)
                    .is_some_and(|x| *x != NO_RECORD);
                let n = measured + usize::from(filled);
                write!(writer, "{n}")?;
                write_records(writer, &self.store, n)?;
                writeln!(writer, " {}", Digits(&coefficients))
            }
            Err(why) => write_refusal(writer, why),
        }
    }
}

impl Replay<60> for State {
    fn replay(&mut self, writer: &mut impl Write, line: &[u8; 60]) -> io::Result<()> {
        match Step::from(line[0]) {
            Step::Start => self.start(),
            Step::Add => self.add(line),
            Step::Measure => {
                self.add(line);
                self.measure(writer)?;
            }
            Step::Ask => self.ask(writer)?,
        }
        Ok(())
    }
}

// Replays every line of the list.
fn main(rt: HostRuntime) -> io::Result<()> {
    let mut state = State {
        calculator: CoefficientCalculator::new(),
        store: [0.0; 128],
        piece: Piece::new(),
    };
    replay_lines(&rt, &mut state, 4_000_000_000)
}
