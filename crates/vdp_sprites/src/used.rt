// The pixels that the kept sprites of a line use (definition, Drawing).
ghost use Rattle.std.specs.Prelude.{◌≡◌};
ghost use Rattle.vdp_sprites.specs.Kept.{walked};
ghost use Rattle.vdp_sprites.specs.SpriteLine.{kept_sprites};
ghost use Rattle.vdp_sprites.specs.Used.{pixels_used};

use crate::sprite::Table;
use crate::walk::KeptSprites;

// The widths of the kept sprites together.
pub(crate) fn pixels_used(table: Table<'_>, w: &KeptSprites) -> u32
    ensures { result
        ≡ pixels_used (kept_sprites table.entry.vram.now table.entry.base (walked w.now)) }
{
    let mut used = 0;
    for i in w.kept.as_slice() {
        used += 8 * u32::from(table.columns_at(*i));
    }
    used
}
