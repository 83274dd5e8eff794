// The calls of frame timing over a state that is lent (definition, Frame timing).
ghost use Rattle.std.specs.Prelude.{◌≡◌};
ghost use Rattle.vdp_timing.specs.Interrupt.{level_offered, acknowledge as acknowledge_answer};
ghost use Rattle.vdp_timing.specs.LineBegins.{line_begins};
ghost use Rattle.vdp_timing.specs.VCounter.{v_counter};
ghost use Rattle.vdp_lent.specs.Answer.{with_state};

use crate::answer::{LentAnswer, lend};
use vdp_state::state::State;
use vdp_timing::interrupt::{acknowledge, level_offered};
use vdp_timing::line_begins::line_begins;
use vdp_timing::v_counter::v_counter;

// The next line begins.
pub fn kuthbareen_line_begins(s: &mut State) -> LentAnswer
    ensures { with_state result s.new ≡ line_begins s.old }
{
    lend(line_begins(*s), s)
}

// Acknowledges the level that is offered.
pub fn kuthbareen_acknowledge(s: &mut State, level: u8) -> LentAnswer
    ensures { with_state result s.new ≡ acknowledge_answer s.old level }
{
    lend(acknowledge(*s, level), s)
}

// Reads the V counter.
pub fn kuthbareen_v_counter(s: &mut State) -> LentAnswer
    ensures { with_state result s.new ≡ v_counter s.old }
{
    lend(v_counter(*s), s)
}

// Reads the level that is offered, 0 if none is.
pub fn kuthbareen_level_offered(s: &mut State) -> LentAnswer
    ensures { with_state result s.new ≡ level_offered s.old }
{
    lend(level_offered(*s), s)
}
