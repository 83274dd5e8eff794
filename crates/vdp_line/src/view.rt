// What a line needs of the registers, computed once, and the rows that 16 columns of the screen show.
ghost use Rattle.std.specs.Prelude.{◌≡◌};
ghost use Rattle.vdp_state.specs.State.{chip};
ghost use Rattle.vdp_line.specs.Extent.{plane_number};
ghost use Rattle.vdp_line.specs.Layer.{horizontal as horizontal_of};
ghost use Rattle.vdp_line.specs.Plane.{side as side_of, row_in};
ghost use Rattle.vdp_line.specs.View.{view_of, scroll_word, scrolled_row, row_a_at, row_b_at, scrolled_in, view_in};

use crate::extent::PlaneName;
use crate::layout::{bit, scroll_place};
use crate::plane::{Plane, Row, plane_of, row_of, window};
use vdp_state::cell::{get_or, word_at};
use vdp_state::state::State;

// A plane and its horizontal scroll.
#[derive(Clone, Copy)]
pub(crate) struct Scrolled {
    pub plane: Plane,
    pub h: u16,
}

// The planes and the window; whether the vertical scroll goes by 16 columns; whether the window has the whole line,
// else whether it lies right of its edge, which is counted in 16 columns.
#[derive(Clone, Copy)]
pub(crate) struct View {
    pub a: Scrolled,
    pub b: Scrolled,
    pub window: Plane,
    pub stepped: bool,
    // No enum of these three: `side` asks rows and columns alike, and would stay for the rows beside an enum's match.
    pub whole: bool,
    pub beyond: bool,
    pub edge: u8,
}

// Below a limit, or with the other bit not below it.
fn side(other: bool, below: bool) -> bool
    ensures { result ≡ side_of other below }
{
    if other { !below } else { below }
}

// A plane's horizontal scroll.
fn horizontal(s: State, vram: &[u8], line: u8, name: PlaneName) -> u16
    ensures { result ≡ horizontal_of (chip s vram.now) line (plane_number name) }
{
    word_at(vram, scroll_place(s, line) + 2 * (name as u32)) % 1024
}

pub(crate) fn view_of(s: State, vram: &[u8], line: u8) -> View
    ensures { view_in result ≡ view_of (chip s vram.now) line }
{
    let down = s.registers[18];
    let across = s.registers[17];
    let scrolled = |name: PlaneName| Scrolled {
        plane: plane_of(s, name),
        h: horizontal(s, vram, line, name),
    };
    View {
        a: scrolled(PlaneName::A),
        b: scrolled(PlaneName::B),
        window: window(s),
        stepped: bit(s.registers[11], 4),
        whole: side(bit(down, 128), line / 8 < down % 32),
        beyond: bit(across, 128),
        edge: across % 32,
    }
}

// Which scroll word holds for a plane on the 16 columns from 16 c on.
fn scroll_word(stepped: bool, name: PlaneName, c: u8) -> usize
    ensures { result ≡ scroll_word stepped (plane_number name) c }
{
    let plane = name as usize;
    if stepped {
        2 * usize::from(c) + plane
    } else {
        plane
    }
}

// The row of a plane there. VSRAM, c and line go one by one, here and below: each call would make a struct anew.
fn scrolled_row(p: Scrolled, stepped: bool, name: PlaneName, vsram: &[u16], c: u8, line: u8) -> Row
    ensures { row_in result
        ≡ scrolled_row (scrolled_in p) stepped (plane_number name) vsram.now c line }
{
    let v = get_or(vsram, scroll_word(stepped, name, c), 0);
    row_of(p.plane, p.h, v, line)
}

// The row of the window or of plane A there.
pub(crate) fn row_a(v: View, vsram: &[u16], c: u8, line: u8) -> Row
    ensures { row_in result ≡ row_a_at (view_in v) vsram.now c line }
{
    if v.whole | side(v.beyond, c < v.edge) {
        return row_of(v.window, 0, 0, line);
    }
    scrolled_row(v.a, v.stepped, PlaneName::A, vsram, c, line)
}

// The row of plane B there.
pub(crate) fn row_b(v: View, vsram: &[u16], c: u8, line: u8) -> Row
    ensures { row_in result ≡ row_b_at (view_in v) vsram.now c line }
{
    scrolled_row(v.b, v.stepped, PlaneName::B, vsram, c, line)
}
