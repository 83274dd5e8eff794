// The interrupt level that is offered, and its acknowledge (definition, Frame timing, Levels; notes s4).
ghost use Rattle.std.specs.Prelude.{◌≡◌};
ghost use Rattle.vdp_state.specs.Answer.{number_in, answer_of, first};
ghost use Rattle.vdp_timing.specs.Interrupt.{level_number, offered as offered_of, level_offered, acknowledged as acknowledged_of, acknowledge_step, acknowledge_tests, acknowledge as acknowledge_answer};

use crate::timing::{timing_read, timing_step};
use vdp_state::answer::{Done, Refusal, made};
use vdp_state::good::good;
use vdp_state::state::{State, Step, Timing};

// The level of each interrupt.
#[derive(Clone, Copy, PartialEq, Eq, Debug)]
pub enum Level {
    Horizontal = 4,
    Vertical = 6,
}

// The level that is offered, if one is.
fn offered(s: State) -> Option<Level>
    ensures { level_number result ≡ offered_of s }
{
    let timing = s.control.timing;
    let vertical = timing.vertical & (s.registers[1] / 32 % 2 == 1);
    if timing.horizontal {
        return Some(Level::Horizontal);
    }
    vertical.then_some(Level::Vertical)
}

// The number of a level, 0 if there is none.
fn level_number(level: Option<Level>) -> u8
    ensures { result ≡ level_number level }
{
    level.map_or(0, |l| l as u8)
}

// Reads the level that is offered.
pub fn level_offered(s: State) -> Result<Done, Refusal>
    ensures { answer_of s result ≡ level_offered s }
{
    timing_read(s, u32::from(level_number(offered(s))))
}

fn acknowledged(t: Timing, level: u8) -> Timing
    ensures { result ≡ acknowledged_of t level }
{
    Timing {
        vertical: t.vertical & (level != Level::Vertical as u8),
        horizontal: t.horizontal & (level != Level::Horizontal as u8),
        ..t
    }
}

// What an acknowledge decides: the interrupt of this level no longer waits. The level stays a number, since C may name
// one that there is not, and is then refused.
pub fn acknowledge_step(s: State, level: u8) -> Step
    ensures { result ≡ acknowledge_step s level }
{
    timing_step(s, acknowledged(s.control.timing, level))
}

// Whether an acknowledge is refused.
pub fn acknowledge_check(s: State, level: u8) -> Result<(), Refusal>
    ensures { number_in result ≡ first (acknowledge_tests s level) }
{
    if !good(s) {
        return Err(Refusal::BadState);
    }
    if (level == 0) | (level != level_number(offered(s))) {
        return Err(Refusal::NothingThere);
    }
    Ok(())
}

// Acknowledges the level that is offered.
pub fn acknowledge(s: State, level: u8) -> Result<Done, Refusal>
    ensures { answer_of s result ≡ acknowledge_answer s level }
{
    acknowledge_check(s, level)?;
    Ok(made(s, acknowledge_step(s, level), 0))
}
