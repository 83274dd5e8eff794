// Dots (definition, Drawing): what a layer shows on a column, 64 x priority + colour index.
ghost use Rattle.std.specs.Prelude.{◌≡◌, ◌<◌};
ghost use Rattle.vdp_draw.specs.Dot.{solid as is_solid, high as is_high, dot_of, flipped as flipped_place, block_name, block_dot};

use crate::pattern::pattern_pixel;

// Whether a dot shows: pixel 0 is clear.
pub fn solid(dot: u8) -> bool
    ensures { result ≡ is_solid dot }
{
    dot % 16 != 0
}

// Whether a dot is of high priority, solid or clear.
pub fn high(dot: u8) -> bool
    ensures { result ≡ is_high dot }
{
    64 <= dot
}

// One of n places, counted from the other end where it is flipped.
fn flipped(flip: bool, n: u16, i: u16) -> u16
    ensures { result ≡ flipped_place flip n i }
{
    if flip {
        n.saturating_sub(i).saturating_sub(1)
    } else {
        i
    }
}

// A pixel with the priority and the colours of its cell.
fn dot_of(cell: u16, pixel: u8) -> u8
    requires { pixel < 16 }
    ensures { result ≡ dot_of cell pixel }
{
    (64 * (cell / 32768) + 16 * (cell / 8192 % 4)) as u8 + pixel
}

// The name of a block's cell that is so many cells across and down: names run down columns.
fn block_name(cell: u16, across: u16, rows: u8, down: u16) -> u16
    ensures { result ≡ block_name cell across rows down }
{
    ((u32::from(cell % 2048) + u32::from(across) * u32::from(rows) + u32::from(down)) % 2048) as u16
}

// The dot at a row and a column, in pixels, of a block of cells.
#[tactic(auto, unfolding(crate::specs::Dot::block_dot))]
pub fn block_dot(vram: &[u8], cell: u16, columns: u8, rows: u8, row: u16, column: u16) -> u8
    ensures { result ≡ block_dot vram.now cell columns rows row column }
{
    let across = flipped(cell / 2048 % 2 == 1, 8 * u16::from(columns), column);
    let down = flipped(cell / 4096 % 2 == 1, 8 * u16::from(rows), row);
    let name = block_name(cell, across / 8, rows, down / 8);
    dot_of(
        cell,
        pattern_pixel(vram, name, (down % 8) as u8, (across % 8) as u8),
    )
}
