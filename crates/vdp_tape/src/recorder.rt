// A step recorded and made (definition, The tape).
ghost use Rattle.std.specs.Prelude.{◌≡◌, ◌+◌, ◌<◌};
ghost use Rattle.vdp_state.specs.Answer.{number_in};
ghost use Rattle.vdp_state.specs.State.{chip};
ghost use Rattle.vdp_tape.specs.Number.{capacity};
ghost use Rattle.vdp_tape.specs.OneStep.{OneStep};
ghost use Rattle.vdp_tape.specs.Recorder.{Plan, recorder, record_step, tape_answer_of, tape_outcome, recorded_by};

use crate::number::{RECORD_SIZE, tape_check};
use crate::record::record_of;
use vdp_state::answer::Refusal;
use vdp_state::cell::{perform, undoing};
use vdp_state::state::{State, Step};

// What a recorded call and a step back give that are done: as the plain call, with the count of records.
#[derive(Clone, Copy)]
pub struct Recorded {
    pub result: u32,
    pub count: usize,
    pub state: State,
}

// Writes the record of a step at the count, and makes the step.
pub(crate) fn record_step(
    s: State,
    vram: &mut [u8],
    tape: &mut [u8],
    count: usize,
    t: Step,
) -> State
    requires { count < capacity tape.old }
    ensures { recorder result vram.new tape.new (count + 1)
        ≡ record_step (recorder s vram.old tape.old count) t }
{
    let at = RECORD_SIZE * count;
    let bytes = record_of(undoing(s, vram, t));
    tape[at..at + RECORD_SIZE].copy_from_slice(&bytes);
    perform(s, vram, t)
}

// A recorded call of one step, from whether its plain form is refused, the step and the result. A tape and its count
// stay apart, as C lends them: a struct of both would be made in each call, to be taken apart here.
pub(crate) fn record_one(
    plain: Result<(), Refusal>,
    s: State,
    vram: &mut [u8],
    tape: &mut [u8],
    count: usize,
    t: Step,
    res: u32,
) -> Result<Recorded, Refusal>
    ensures { (p : Plan) → OneStep p (chip s vram.old) (number_in plain) res t
        → tape_outcome (tape_answer_of s count result) vram.new tape.new
        ≡ recorded_by p (recorder s vram.old tape.old count) }
{
    tape_check(plain, tape, count, 1)?;
    Ok(Recorded {
        result: res,
        count: count + 1,
        state: record_step(s, vram, tape, count, t),
    })
}
