// What the tape adds to a call's refusals (definition, Numbers a call may answer).
ghost use Rattle.std.specs.Prelude.{◌≡◌};
ghost use Rattle.vdp_state.specs.Answer.{number_in};
ghost use Rattle.vdp_tape.specs.Number.{capacity as capacity_of};
ghost use Rattle.vdp_tape.specs.OneStep.{Numbered};

use vdp_state::answer::Refusal;

pub const RECORD_SIZE: usize = 32;

// How many records a tape has room for.
pub fn capacity(tape: &[u8]) -> usize
    ensures { result ≡ capacity_of tape.now }
{
    tape.len() / RECORD_SIZE
}

// Whether a recorded call of so many steps is refused, from whether its plain form is.
pub fn tape_check(
    plain: Result<(), Refusal>,
    tape: &[u8],
    count: usize,
    steps: u32,
) -> Result<(), Refusal>
    ensures { Numbered (number_in plain) count (capacity_of tape.now) steps (number_in result) }
{
    let room = capacity(tape);
    if plain == Err(Refusal::BadState) {
        return plain;
    }
    if room < count {
        return Err(Refusal::BadBuffer);
    }
    plain?;
    if room - count < steps as usize {
        return Err(Refusal::TapeFull);
    }
    Ok(())
}
