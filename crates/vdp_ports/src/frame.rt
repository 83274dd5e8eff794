// A new frame (definition, Ports).
ghost use Rattle.std.specs.Prelude.{◌≡◌};
ghost use Rattle.vdp_state.specs.Answer.{number_in, answer_of, first};
ghost use Rattle.vdp_ports.specs.Frame.{frame_step, frame_tests, new_frame};

use crate::status::flags_cleared;
use vdp_state::answer::{Done, Refusal, made};
use vdp_state::good::good;
use vdp_state::state::{State, Step, Store};

// What a new frame decides: overflow, collision and used up are cleared.
pub fn frame_step(s: State) -> Step
    ensures { result ≡ frame_step s }
{
    Step {
        control: flags_cleared(s.control, false),
        store: Store::Nothing,
    }
}

// Whether a new frame is refused.
pub fn frame_check(s: State) -> Result<(), Refusal>
    ensures { number_in result ≡ first (frame_tests s) }
{
    if !good(s) {
        return Err(Refusal::BadState);
    }
    Ok(())
}

// Begins a new frame.
pub fn new_frame(s: State) -> Result<Done, Refusal>
    ensures { answer_of s result ≡ new_frame s }
{
    frame_check(s)?;
    Ok(made(s, frame_step(s), 0))
}
