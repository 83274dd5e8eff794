// A line begins (definition, Frame timing, A line begins; notes s4).
ghost use Rattle.std.specs.Prelude.{◌≡◌};
ghost use Rattle.vdp_state.specs.Answer.{number_in, answer_of, first};
ghost use Rattle.vdp_timing.specs.LineBegins.{next_line, loaded as loaded_at, expires as expires_at, counted as counted_at, timing_begun, line_begins_step, line_begins_tests, line_begins};

use crate::timing::timing_step;
use vdp_state::answer::{Done, Refusal, made};
use vdp_state::good::{LAST_LINE, good};
use vdp_state::state::{State, Step, Timing};

// The line that sets status bit 7, the last one on which the counter counts.
const VERTICAL_LINE: u16 = 224;

fn next_line(line: u16) -> u16
    ensures { result ≡ next_line line }
{
    if line < LAST_LINE { line + 1 } else { 0 }
}

// The counter once it has been loaded, on the lines that load it.
fn loaded(line: u16, reload: u8, counter: u8) -> u8
    ensures { result ≡ loaded_at line reload counter }
{
    if (line == 0) | (225 <= line) {
        reload
    } else {
        counter
    }
}

fn expires(line: u16, counter: u8) -> bool
    ensures { result ≡ expires_at line counter }
{
    (line <= VERTICAL_LINE) & (counter == 0)
}

// The counter once the line has been counted, on the lines that count.
fn counted(line: u16, reload: u8, counter: u8) -> u8
    ensures { result ≡ counted_at line reload counter }
{
    if VERTICAL_LINE < line {
        return counter;
    }
    if counter == 0 { reload } else { counter - 1 }
}

// The timing once the next line has begun.
fn timing_begun(s: State) -> Timing
    ensures { result ≡ timing_begun s }
{
    let before = s.control.timing;
    let reload = s.registers[10];
    let line = next_line(before.line);
    let counter = loaded(line, reload, before.counter);
    let expired = expires(line, counter);
    let enabled = s.registers[0] / 16 % 2 == 1;
    Timing {
        line,
        counter: counted(line, reload, counter),
        vertical: before.vertical | (line == VERTICAL_LINE),
        horizontal: before.horizontal | (expired & enabled),
    }
}

// What the beginning of a line decides: the timing.
pub fn line_begins_step(s: State) -> Step
    ensures { result ≡ line_begins_step s }
{
    timing_step(s, timing_begun(s))
}

// Whether the beginning of a line is refused.
pub fn line_begins_check(s: State) -> Result<(), Refusal>
    ensures { number_in result ≡ first (line_begins_tests s) }
{
    if !good(s) {
        return Err(Refusal::BadState);
    }
    if s.pal {
        return Err(Refusal::NotModelled);
    }
    Ok(())
}

// The next line begins.
pub fn line_begins(s: State) -> Result<Done, Refusal>
    ensures { answer_of s result ≡ line_begins s }
{
    line_begins_check(s)?;
    Ok(made(s, line_begins_step(s), 0))
}
