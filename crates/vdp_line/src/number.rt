// The number that a line answers (definition, Numbers a call may answer; Drawing).
ghost use Rattle.std.specs.Prelude.{◌≡◌, ◌<◌};
ghost use Rattle.vdp_state.specs.Answer.{number_in};
ghost use Rattle.vdp_state.specs.State.{chip};
ghost use Rattle.vdp_line.specs.Line.{plane_cells, not_modelled, line_number};

use crate::layout::{bit, cells, code_across, code_down, height};
use vdp_ports::refusal::VRAM_SIZE;
use vdp_state::answer::Refusal;
use vdp_state::good::good;
use vdp_state::state::State;

pub const LINE_SIZE: usize = 320;

// How many cells a plane has.
fn plane_cells(s: State) -> u32
    ensures { result ≡ plane_cells s }
{
    u32::from(cells(code_across(s)).cells()) * u32::from(cells(code_down(s)).cells())
}

// Whether the registers ask for what is not modelled.
fn not_modelled(s: State) -> bool
    ensures { result ≡ (not_modelled s).holds }
{
    let r0 = s.registers[0];
    let r1 = s.registers[1];
    let r12 = s.registers[12];
    bit(r0, 1)
        | bit(r0, 8)
        | bit(r1, 128)
        | bit(r1, 1)
        | !bit(r1, 4)
        | (bit(r12, 128) != bit(r12, 1))
        | bit(r12, 4)
        | bit(r12, 2)
        | (code_across(s) == 2)
        | (code_down(s) == 2)
        | (4096 < plane_cells(s))
}

// Whether a line is refused. Inlined, so that the compiler sees VRAM's length in the line's loops: else each dot is asked
// for its bounds, and sprites are painted column by column.
#[inline(always)]
pub fn line_check(s: State, vram: &[u8], line: u32, pixels: &[u8]) -> Result<(), Refusal>
    ensures { number_in result ≡ line_number (chip s vram.now) line pixels.now }
{
    if !good(s) {
        return Err(Refusal::BadState);
    }
    if vram.len() != VRAM_SIZE {
        return Err(Refusal::BadBuffer);
    }
    if pixels.len() != LINE_SIZE {
        return Err(Refusal::BadBuffer);
    }
    if height(s) <= line {
        return Err(Refusal::NoSuchPlace);
    }
    if not_modelled(s) {
        return Err(Refusal::NotModelled);
    }
    Ok(())
}
