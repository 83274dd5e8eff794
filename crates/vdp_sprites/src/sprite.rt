// A sprite of the table (definition, Drawing; notes s15).
ghost use Rattle.std.specs.Prelude.{◌≡◌, ◌+◌, ◌/◌, ◌%◌, ◌<◌};
ghost use Rattle.vdp_sprites.specs.Sprite.{sprite_from, sprite_at, on_line};

use vdp_state::cell::{get_or, word_at};

// Y and X as they are stored, 128 more than on the screen; the size in cells; the link; the cell word.
#[derive(Clone, Copy)]
pub struct Sprite {
    pub y: u16,
    pub columns: u8,
    pub rows: u8,
    pub link: u8,
    pub cell: u16,
    pub x: u16,
}

// The sprites' table: VRAM, and where the table lies in it.
#[derive(Clone, Copy)]
pub struct Table<'a> {
    pub vram: &'a [u8],
    pub base: u16,
}

impl Table<'_> {
    // Sprite i.
    pub fn sprite_at(self, i: u8) -> Sprite
        ensures { result ≡ sprite_at self.entry.vram.now self.entry.base i }
    {
        sprite_from(self.vram, u32::from(self.base) + 8 * u32::from(i))
    }

    // The width in cells of sprite i, read by itself.
    pub(crate) fn columns_at(self, i: u8) -> u8
        ensures { result ≡ (sprite_at self.entry.vram.now self.entry.base i).columns }
    {
        columns_of(get_or(
            self.vram,
            usize::from(self.base) + 8 * usize::from(i) + 2,
            0,
        ))
    }
}

// The width in cells, of the size byte.
fn columns_of(size: u8) -> u8
    ensures { result ≡ size / 4 % 4 + 1 }
{
    size / 4 % 4 + 1
}

// The sprite whose first byte lies at a place.
fn sprite_from(vram: &[u8], place: u32) -> Sprite
    requires { place < 1048576 }
    ensures { result ≡ sprite_from vram.now place }
{
    let size = get_or(vram, (place + 2) as usize, 0);
    Sprite {
        y: word_at(vram, place) % 512,
        columns: columns_of(size),
        rows: size % 4 + 1,
        link: get_or(vram, (place + 3) as usize, 0) % 128,
        cell: word_at(vram, place + 4),
        x: word_at(vram, place + 6) % 512,
    }
}

// Whether a line of the screen crosses the sprite.
pub(crate) fn on_line(s: Sprite, line: u8) -> bool
    ensures { result ≡ on_line s line }
{
    let at = u32::from(line) + 128;
    let top = u32::from(s.y);
    (top <= at) & (at < top + 8 * u32::from(s.rows))
}
