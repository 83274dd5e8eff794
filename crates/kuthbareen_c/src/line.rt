// The line over a state that is lent, for C programs.
ghost use Rattle.std.specs.Prelude.{◌≡◌};
ghost use Rattle.vdp_state.specs.State.{chip};
ghost use Rattle.vdp_line.specs.Line.{line_outcome, line as line_of};
ghost use Rattle.vdp_lent.specs.Answer.{with_state};

use vdp_lent::answer::LentAnswer;
use vdp_lent::line;
use vdp_state::state::State;

// Draws a line: its pixel bytes, and the visits as the result.
#[unsafe(no_mangle)]
pub extern "C" fn kuthbareen_line(
    s: &mut State,
    vram: &[u8],
    line: u32,
    pixels: &mut [u8],
) -> LentAnswer
    ensures { line_outcome (with_state result s.new) pixels.new
        ≡ line_of (chip s.old vram.now) line pixels.old }
{
    line::kuthbareen_line(s, vram, line, pixels)
}
