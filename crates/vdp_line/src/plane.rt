// Planes and the window (definition, Drawing; notes s12 to s14).
ghost use Rattle.std.specs.Prelude.{◌≡◌};
ghost use Rattle.vdp_line.specs.Plane.{plane_of, window_columns, window as window_of, row_of, row_dot, plane_in, row_in};
ghost use Rattle.vdp_line.specs.Extent.{cells_in};

use crate::extent::{Extent, PlaneName};
use crate::layout::{base_of, base_window, cells, code_across, code_down, wide};
use vdp_draw::dot::block_dot;
use vdp_state::cell::word_at;
use vdp_state::state::State;

// A table of cells: where it lies, and how many cells it has across and down.
#[derive(Clone, Copy)]
pub(crate) struct Plane {
    pub base: u16,
    pub columns: Extent,
    pub rows: Extent,
}

// The row of a plane's cells that a line crosses, what its columns are moved by, and the line within the row.
#[derive(Clone, Copy)]
pub(crate) struct Row {
    pub base: u16,
    pub row: u8,
    pub columns: Extent,
    pub shift: u16,
    pub line: u8,
}

pub(crate) fn plane_of(s: State, name: PlaneName) -> Plane
    ensures { plane_in result ≡ plane_of s name }
{
    Plane {
        base: base_of(s, name),
        columns: cells(code_across(s)),
        rows: cells(code_down(s)),
    }
}

// How many cells the window's table has across.
fn window_columns(s: State) -> Extent
    ensures { cells_in result ≡ window_columns s }
{
    if wide(s) {
        Extent::Cells64
    } else {
        Extent::Cells32
    }
}

pub(crate) fn window(s: State) -> Plane
    ensures { plane_in result ≡ window_of s }
{
    Plane {
        base: base_window(s),
        columns: window_columns(s),
        rows: Extent::Cells32,
    }
}

// The row that a line crosses under the scrolls h and v.
pub(crate) fn row_of(p: Plane, h: u16, v: u16, line: u8) -> Row
    ensures { row_in result ≡ row_of (plane_in p) h v line }
{
    let down = p.rows.pixel(u32::from(line) + u32::from(v));
    Row {
        base: p.base,
        row: (down / 8) as u8,
        columns: p.columns,
        shift: 1024u16.saturating_sub(h),
        line: (down % 8) as u8,
    }
}

// The dot that a row shows on column x of the screen.
pub(crate) fn row_dot(vram: &[u8], r: Row, x: u16) -> u8
    ensures { result ≡ row_dot vram.now (row_in r) x }
{
    let across = r.columns.pixel(u32::from(x) + u32::from(r.shift));
    let cell = u32::from(r.row) * u32::from(r.columns.cells()) + across / 8;
    let word = word_at(vram, u32::from(r.base) + 2 * cell);
    block_dot(vram, word, 1, 1, u16::from(r.line), (across % 8) as u16)
}
