// The status word and what reading it clears (definition, Ports).
ghost use Rattle.std.specs.Prelude.{◌≡◌};
ghost use Rattle.vdp_state.specs.Answer.{number_in, answer_of, first};
ghost use Rattle.vdp_ports.specs.Status.{flag as flagged, blanking as is_blanking, status_word, flags_cleared, status_step, status_tests, status_read};

use crate::refusal::{filling, transferring};
use vdp_state::answer::{Done, Refusal, made};
use vdp_state::good::good;
use vdp_state::state::{Control, Flags, Port, State, Step, Store};

// A number where a flag is set.
fn flag(set: bool, n: u16) -> u16
    ensures { result ≡ flagged set n }
{
    if set { n } else { 0 }
}

fn blanking(line: u16) -> bool
    ensures { result ≡ is_blanking line }
{
    (224 <= line) & (line <= 260)
}

// The status word of a state.
#[tactic(auto, unfolding(crate::specs::Status::status_word))]
pub fn status_word(s: State) -> u16
    ensures { result ≡ status_word s }
{
    let flags = s.control.flags;
    let timing = s.control.timing;
    0x3600
        + flag(timing.vertical, 0x80)
        + flag(flags.overflow, 0x40)
        + flag(flags.collision, 0x20)
        + flag(blanking(timing.line), 8)
        + flag(filling(s), 2)
        + flag(s.pal, 1)
}

// The control part with overflow and collision cleared, as a status read and a new frame leave them; used up as given.
pub(crate) fn flags_cleared(control: Control, used: bool) -> Control
    ensures { result ≡ flags_cleared control used }
{
    Control {
        flags: Flags {
            overflow: false,
            collision: false,
            used_up: used,
        },
        ..control
    }
}

// What a status read decides: pending, overflow and collision are cleared.
pub fn status_step(s: State) -> Step
    ensures { result ≡ status_step s }
{
    let control = Control {
        port: Port {
            pending: false,
            ..s.control.port
        },
        ..s.control
    };
    Step {
        control: flags_cleared(control, s.control.flags.used_up),
        store: Store::Nothing,
    }
}

// Whether a status read is refused.
pub fn status_check(s: State) -> Result<(), Refusal>
    ensures { number_in result ≡ first (status_tests s) }
{
    if !good(s) {
        return Err(Refusal::BadState);
    }
    if transferring(s) {
        return Err(Refusal::Busy);
    }
    Ok(())
}

// Reads the status word, as it is before the flags are cleared.
pub fn status_read(s: State) -> Result<Done, Refusal>
    ensures { answer_of s result ≡ status_read s }
{
    status_check(s)?;
    Ok(made(s, status_step(s), u32::from(status_word(s))))
}
