// The recorded forms of the calls of frame timing (definition, Frame timing and The tape).
ghost use Rattle.std.specs.Prelude.{◌≡◌, List, ℕ};
ghost use Rattle.vdp_tape.specs.Recorded.{LineBegins, Acknowledge, recorded};
ghost use Rattle.vdp_tape.specs.Recorder.{recorder, tape_answer_of, tape_outcome};

use crate::calls::without_vram;
use crate::recorder::Recorded;
use vdp_state::answer::Refusal;
use vdp_state::state::State;
use vdp_timing::interrupt::{acknowledge_check, acknowledge_step};
use vdp_timing::line_begins::{line_begins_check, line_begins_step};

// The next line begins.
pub fn line_begins(s: State, tape: &mut [u8], count: usize) -> Result<Recorded, Refusal>
    ensures { (m : List ℕ) → tape_outcome (tape_answer_of s count result) m tape.new
        ≡ recorded LineBegins (recorder s m tape.old count) }
{
    let check = line_begins_check(s);
    without_vram(check, s, tape, count, line_begins_step(s), 0)
}

// Acknowledges the level that is offered.
pub fn acknowledge(s: State, tape: &mut [u8], count: usize, level: u8) -> Result<Recorded, Refusal>
    ensures { (m : List ℕ) → tape_outcome (tape_answer_of s count result) m tape.new
        ≡ recorded (Acknowledge level) (recorder s m tape.old count) }
{
    let check = acknowledge_check(s, level);
    without_vram(check, s, tape, count, acknowledge_step(s, level), 0)
}
