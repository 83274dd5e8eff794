// Patterns (definition, Drawing): 32 bytes each, eight rows of eight pixels.
ghost use Rattle.std.specs.Prelude.{◌≡◌};
ghost use Rattle.vdp_draw.specs.Pattern.{half as half_of, pattern_pixel};

use vdp_state::cell::get_or;

// The pixel that a byte holds for a column: an even column's in the high half.
fn half(b: u8, column: u8) -> u8
    ensures { result ≡ half_of b column }
{
    if column % 2 == 0 { b / 16 } else { b % 16 }
}

// An unflipped pixel of a pattern.
pub fn pattern_pixel(vram: &[u8], name: u16, row: u8, column: u8) -> u8
    ensures { result ≡ pattern_pixel vram.now name row column }
{
    let place = 32 * usize::from(name) + 4 * usize::from(row) + usize::from(column / 2);
    half(get_or(vram, place, 0), column)
}
