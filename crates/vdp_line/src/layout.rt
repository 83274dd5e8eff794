// The layout of a line from the registers (definition, Drawing; notes s12 to s14, s17).
ghost use Rattle.std.specs.Prelude.{◌≡◌, ◌*◌, ◌/◌, ◌%◌, ◌<◌, cond, eqb};
ghost use Rattle.vdp_line.specs.Layout.{wide as is_wide, shadow as is_shadow, height as height_of, displayed as is_displayed, backdrop as backdrop_of, base_of, base_window, base_sprites, code_across, code_down, cells as cells_of, scroll_line, scroll_place};
ghost use Rattle.vdp_line.specs.Extent.{cells_in};

use crate::extent::{Extent, PlaneName};
use vdp_state::state::State;

// A bit of a register, by its value.
pub(crate) fn bit(b: u8, value: u8) -> bool
    requires { 0 < value }
    ensures { result ≡ eqb (b / value % 2) 1 }
{
    b / value % 2 == 1
}

pub(crate) fn wide(s: State) -> bool
    ensures { result ≡ is_wide s }
{
    bit(s.registers[12], 1)
}

// Whether shadow and highlight are on.
pub(crate) fn shadow(s: State) -> bool
    ensures { result ≡ is_shadow s }
{
    bit(s.registers[12], 8)
}

pub(crate) fn height(s: State) -> u32
    ensures { result ≡ height_of s }
{
    if bit(s.registers[1], 8) { 240 } else { 224 }
}

pub(crate) fn displayed(s: State) -> bool
    ensures { result ≡ is_displayed s }
{
    bit(s.registers[1], 64)
}

pub(crate) fn backdrop(s: State) -> u8
    ensures { result ≡ backdrop_of s }
{
    s.registers[7] % 64
}

// Where a plane's cells begin.
pub(crate) fn base_of(s: State, plane: PlaneName) -> u16
    ensures { result ≡ base_of s plane }
{
    let bits = match plane {
        PlaneName::A => s.registers[2] / 8,
        PlaneName::B => s.registers[4],
    };
    u16::from(bits % 8) * 8192
}

// Where a table begins, from the bits of its register: the lowest stands for `unit` bytes and is taken as 0 at 320.
fn base_by_width(s: State, bits: u8, unit: u16) -> u16
    requires { bits * unit < 65536 }
    ensures { result ≡ cond (is_wide s) (bits / 2 * 2) bits * unit }
{
    u16::from(if wide(s) { bits / 2 * 2 } else { bits }) * unit
}

pub(crate) fn base_window(s: State) -> u16
    ensures { result ≡ base_window s }
{
    base_by_width(s, s.registers[3] / 2 % 32, 2048)
}

pub(crate) fn base_sprites(s: State) -> u16
    ensures { result ≡ base_sprites s }
{
    base_by_width(s, s.registers[5] % 128, 512)
}

// How far a plane reaches, from its code: 0, 1 or 3. No `From`: a code of register 16 is not the extent as a number.
pub(crate) fn cells(code: u8) -> Extent
    ensures { cells_in result ≡ cells_of code }
{
    match code {
        0 => Extent::Cells32,
        1 => Extent::Cells64,
        _ => Extent::Cells128,
    }
}

// The codes stay two functions, each one expression of register 16: one of both would take a divisor and be no plainer.
pub(crate) fn code_across(s: State) -> u8
    ensures { result ≡ code_across s }
{
    s.registers[16] % 4
}

pub(crate) fn code_down(s: State) -> u8
    ensures { result ≡ code_down s }
{
    s.registers[16] / 16 % 4
}

// The line whose entry of the horizontal scroll table holds. The mode stays a number, two bits of register 11 that are
// asked here alone: an enum would be made of them by these same four arms, and be no plainer.
fn scroll_line(mode: u8, line: u8) -> u8
    ensures { result ≡ scroll_line mode line }
{
    match mode {
        0 => 0,
        1 => line % 8,
        2 => line - line % 8,
        _ => line,
    }
}

// Where that entry lies.
pub(crate) fn scroll_place(s: State, line: u8) -> u32
    ensures { result ≡ scroll_place s line }
{
    let base = u32::from(s.registers[13] % 64) * 1024;
    base + 4 * u32::from(scroll_line(s.registers[11] % 4, line))
}
