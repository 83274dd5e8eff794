// What the calls of frame timing share (definition, Frame timing): a step that replaces the timing alone, and a read,
// which changes nothing.
ghost use Rattle.std.specs.Prelude.{◌≡◌};
ghost use Rattle.vdp_state.specs.Answer.{answer_of};
ghost use Rattle.vdp_timing.specs.Timing.{timing_step, timing_read};

use vdp_state::answer::{Done, Refusal};
use vdp_state::good::good;
use vdp_state::state::{Control, State, Step, Store, Timing};

// The step that replaces the timing.
pub(crate) fn timing_step(s: State, timing: Timing) -> Step
    ensures { result ≡ timing_step s timing }
{
    Step {
        control: Control {
            timing,
            ..s.control
        },
        store: Store::Nothing,
    }
}

// What a read gives that has this result.
pub(crate) fn timing_read(s: State, res: u32) -> Result<Done, Refusal>
    ensures { answer_of s result ≡ timing_read s res }
{
    if !good(s) {
        return Err(Refusal::BadState);
    }
    Ok(Done {
        result: res,
        state: s,
    })
}
