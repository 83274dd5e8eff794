// The recorded line (definition, The tape and Drawing): the plain line's work and one record, of a step that stores
// nothing.
ghost use Rattle.std.specs.Prelude.{◌≡◌};
ghost use Rattle.vdp_tape.specs.Line.{line_tape_outcome, recorded_line};
ghost use Rattle.vdp_tape.specs.Recorder.{recorder, tape_answer_of, tape_outcome};

use crate::calls::without_vram;
use crate::number::tape_check;
use crate::recorder::Recorded;
use vdp_line::line::line as draw;
use vdp_line::number::line_check;
use vdp_state::answer::Refusal;
use vdp_state::state::{State, Step, Store};

// Draws a line; a line that the tape has no room for draws nothing.
pub fn line(
    s: State,
    vram: &[u8],
    tape: &mut [u8],
    count: usize,
    line: u32,
    pixels: &mut [u8],
) -> Result<Recorded, Refusal>
    ensures { line_tape_outcome (tape_outcome (tape_answer_of s count result) vram.now tape.new) pixels.new
        ≡ recorded_line line pixels.old (recorder s vram.now tape.old count) }
{
    tape_check(line_check(s, vram, line, pixels), tape, count, 1)?;
    let drawn = draw(s, vram, line, pixels)?; // is not refused, since its check has passed
    let t = Step {
        control: drawn.state.control,
        store: Store::Nothing,
    };
    without_vram(Ok(()), s, tape, count, t, drawn.result)
}
