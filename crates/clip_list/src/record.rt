// What a line has.
use block::FrameContext;
use clip::Encoder;
use clip::starting::Start;
use layout::Loop;
use replay::{Number, numbers};
use whole::History;

// The loop of a line.
pub(crate) fn loop_of(line: &[u8; 182]) -> Loop {
    Loop {
        start: u32::read(line, 9),
        end: u32::read(line, 17),
        present: u8::read(line, 7) != 0,
    }
}

// The context at the loop start of a line.
pub(crate) fn context_of(line: &[u8; 182]) -> FrameContext {
    FrameContext {
        predictor_and_scale: u16::read(line, 25),
        last_samples: History::read(line, 29),
    }
}

// What the clip of a line is started with: where the line says so, with the loop that is given.
pub(crate) fn start_of(line: &[u8; 182], looped: Loop) -> Start {
    Start {
        total: u32::read(line, 9),
        rate: u32::read(line, 17),
        block: u32::read(line, 25),
        gain: u16::read(line, 33),
        coefficients: numbers(line, 37),
        history: History::read(line, 101),
        looped: if u8::read(line, 7) != 0 {
            looped
        } else {
            Loop::default()
        },
    }
}

// The state of a line, with no loop.
pub(crate) fn encoder_of(line: &[u8; 182]) -> Encoder {
    Encoder {
        total: u32::read(line, 9),
        rate: u32::read(line, 17),
        block: u32::read(line, 25),
        gain: u16::read(line, 33),
        coefficients: numbers(line, 37),
        fed: u32::read(line, 109),
        history: History::read(line, 101),
        frame: numbers(line, 125),
        passes: u32::read(line, 117),
        closed: u8::read(line, 7) != 0,
        ..Encoder::default()
    }
}
