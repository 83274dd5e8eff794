// All that the sprites give to a line (definition, Drawing).
ghost use Rattle.std.specs.Prelude.{◌≡◌};
ghost use Rattle.vdp_sprites.specs.SpriteLine.{sprite_line};

use crate::paint::paint_kept;
use crate::sprite::Table;
use crate::used::pixels_used;
use crate::walk::walk;
use vdp_draw::width::width_of;

// The dots of the 320 columns, clear past the width; the visits; one sprite too many; two solid pixels on a column;
// whether the kept sprites used up the line's pixels.
#[derive(Clone, Copy)]
pub struct SpriteLine {
    pub dots: [u8; 320],
    pub visits: u8,
    pub overflow: bool,
    pub collision: bool,
    pub used_up: bool,
}

// Walks the table at a base and lays the sprites of a line on its columns; `began` is used up as the line began.
pub fn sprite_line(vram: &[u8], base: u16, wide: bool, began: bool, line: u8) -> SpriteLine
    ensures { result ≡ sprite_line vram.now base wide began line }
{
    let table = Table { vram, base };
    let w = walk(table, wide, line);
    let width = width_of(wide);
    let used = pixels_used(table, &w);
    let mut dots = [0; 320];
    let collision = paint_kept(table, &w, line, began, &mut dots[..width as usize]);
    SpriteLine {
        dots,
        visits: w.visits,
        overflow: w.overflow,
        collision,
        used_up: width <= used,
    }
}
