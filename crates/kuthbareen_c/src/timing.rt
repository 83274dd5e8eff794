// Frame timing over a state that is lent, for C programs.
ghost use Rattle.std.specs.Prelude.{◌≡◌};
ghost use Rattle.vdp_timing.specs.Interrupt.{level_offered, acknowledge as acknowledge_answer};
ghost use Rattle.vdp_timing.specs.LineBegins.{line_begins};
ghost use Rattle.vdp_timing.specs.VCounter.{v_counter};
ghost use Rattle.vdp_lent.specs.Answer.{with_state};

use vdp_lent::answer::LentAnswer;
use vdp_lent::timing;
use vdp_state::state::State;

// The next line begins.
#[unsafe(no_mangle)]
pub extern "C" fn kuthbareen_line_begins(s: &mut State) -> LentAnswer
    ensures { with_state result s.new ≡ line_begins s.old }
{
    timing::kuthbareen_line_begins(s)
}

// Acknowledges the level that is offered.
#[unsafe(no_mangle)]
pub extern "C" fn kuthbareen_acknowledge(s: &mut State, level: u8) -> LentAnswer
    ensures { with_state result s.new ≡ acknowledge_answer s.old level }
{
    timing::kuthbareen_acknowledge(s, level)
}

// Reads the V counter.
#[unsafe(no_mangle)]
pub extern "C" fn kuthbareen_v_counter(s: &mut State) -> LentAnswer
    ensures { with_state result s.new ≡ v_counter s.old }
{
    timing::kuthbareen_v_counter(s)
}

// Reads the level that is offered, 0 if none is.
#[unsafe(no_mangle)]
pub extern "C" fn kuthbareen_level_offered(s: &mut State) -> LentAnswer
    ensures { with_state result s.new ≡ level_offered s.old }
{
    timing::kuthbareen_level_offered(s)
}
