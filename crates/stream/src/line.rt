// A line of output: the numbers of a call or the digests, decimal, with single spaces.
ghost use Rattle.std.specs.Prelude.{Some};
ghost use Rattle.stream.specs.Line.{line_text};

use crate::outcome::Outcome;
use std::fmt;

#[derive(Clone, Copy, PartialEq, Eq, Debug)]
pub enum Line {
    // the op, what the call answers, and the count after it
    Call {
        op: u8,
        outcome: Outcome,
        count: usize,
    },
    // the digests of the state and of four buffers, and the count
    Digests {
        state: u32,
        vram: u32,
        pixels: u32,
        row: u32,
        tape: u32,
        count: usize,
    },
}

pub(crate) fn call_line(op: u8, outcome: Outcome, count: usize) -> Line {
    Line::Call { op, outcome, count }
}

impl fmt::Display for Line {
    ghost output = { λ line. Some (line_text line) };

    fn fmt<W: fmt::Write>(&self, f: &mut fmt::Formatter<W>) -> fmt::Result {
        match *self {
            Line::Call {
                op,
                outcome: Outcome { number, result },
                count,
            } => write!(f, "{op} {number} {result} {count}"),
            Line::Digests {
                state,
                vram,
                pixels,
                row,
                tape,
                count,
            } => write!(f, "48 {state} {vram} {pixels} {row} {tape} {count}"),
        }
    }
}
