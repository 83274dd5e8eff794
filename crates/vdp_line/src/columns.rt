// The columns of a line, 16 at a time: neither the vertical scroll nor the window's edge changes within them.
ghost use Rattle.std.specs.Prelude.{◌≡◌, ◌*◌, ◌<◌, ℕ, get_or};
ghost use Rattle.vdp_state.specs.State.{chip};
ghost use Rattle.vdp_draw.specs.Painted.{painted};
ghost use Rattle.vdp_draw.specs.Width.{width_of};
ghost use Rattle.vdp_line.specs.Columns.{Shows};
ghost use Rattle.vdp_line.specs.Layer.{dot_a, dot_b};
ghost use Rattle.vdp_line.specs.Layout.{wide as is_wide};
ghost use Rattle.vdp_line.specs.Line.{mixed};
ghost use Rattle.vdp_line.specs.Plane.{row_dot, row_in};

use crate::intensity::shaded;
use crate::layout::{backdrop, shadow, wide};
use crate::mix::{Dots, mix};
use crate::plane::{Row, row_dot};
use crate::view::{row_a, row_b, view_of};
use vdp_draw::width::width_of;
use vdp_state::state::State;

// The rows that the planes show on 16 columns.
#[derive(Clone, Copy)]
struct Rows {
    b: Row,
    a: Row,
}

// Writes the 16 columns from 16 c on, where the planes show these rows. Dots and pixels go one by one, here and below:
// the dots are lent to be read, and the pixels to be written.
fn paint_group<F: Fn(Dots) -> u8>(
    vram: &[u8],
    rows: Rows,
    dots: &[u8; 320],
    c: u8,
    pixels: &mut [u8; 320],
    shown: F,
)
    requires callable { F.IsAlwaysCallable shown }
    requires group { c < 20 }
    ensures { (p : ℕ → ℕ → ℕ → ℕ)
        → Shows (F.post shown) p
        → pixels.new
        ≡ painted (λ x _. p (row_dot vram.now (row_in rows.b) x) (row_dot vram.now (row_in rows.a) x) (get_or dots.now x 0))
        (16 * c) 16 pixels.old }
{
    let from = 16 * u16::from(c);
    for x in from..from + 16 {
        let i = usize::from(x);
        pixels[i] = shown(Dots {
            b: row_dot(vram, rows.b, x),
            a: row_dot(vram, rows.a, x),
            sprite: dots[i],
        });
    }
}

// Writes the visible columns of a line.
fn paint_columns<F: Fn(Dots) -> u8>(
    s: State,
    vram: &[u8],
    line: u8,
    dots: &[u8; 320],
    pixels: &mut [u8; 320],
    shown: F,
)
    requires { F.IsAlwaysCallable shown }
    ensures { (p : ℕ → ℕ → ℕ → ℕ)
        → Shows (F.post shown) p
        → pixels.new
        ≡ painted (λ x _. p (dot_b (chip s vram.now) line x) (dot_a (chip s vram.now) line x) (get_or dots.now x 0))
        0 (width_of (is_wide s)) pixels.old }
{
    let view = view_of(s, vram, line);
    let groups = (width_of(wide(s)) / 16) as u8;
    for c in 0..groups {
        let rows = Rows {
            b: row_b(view, &s.vsram, c, line),
            a: row_a(view, &s.vsram, c, line),
        };
        paint_group(vram, rows, dots, c, pixels, &shown);
    }
}

// Writes the visible columns of a displayed line. Shadow is asked once, and not at each column.
pub(crate) fn draw_columns(
    s: State,
    vram: &[u8],
    line: u8,
    dots: &[u8; 320],
    pixels: &mut [u8; 320],
)
    ensures { pixels.new
        ≡ painted (λ x _. mixed (chip s vram.now) line dots.now x)
        0 (width_of (is_wide s)) pixels.old }
{
    let back = backdrop(s);
    if shadow(s) {
        paint_columns(s, vram, line, dots, pixels, |there| shaded(back, there));
    } else {
        paint_columns(s, vram, line, dots, pixels, |there| mix(back, there));
    }
}
