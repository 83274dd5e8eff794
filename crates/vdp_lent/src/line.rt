// The line over a state that is lent (definition, Drawing).
ghost use Rattle.std.specs.Prelude.{◌≡◌};
ghost use Rattle.vdp_state.specs.State.{chip};
ghost use Rattle.vdp_line.specs.Line.{line_outcome, line as line_of};
ghost use Rattle.vdp_lent.specs.Answer.{with_state};

use crate::answer::{LentAnswer, lend};
use vdp_line::line::line as draw;
use vdp_state::state::State;

// Draws a line: its pixel bytes, and the visits as the result.
pub fn kuthbareen_line(s: &mut State, vram: &[u8], line: u32, pixels: &mut [u8]) -> LentAnswer
    ensures { line_outcome (with_state result s.new) pixels.new
        ≡ line_of (chip s.old vram.now) line pixels.old }
{
    lend(draw(*s, vram, line, pixels), s)
}
