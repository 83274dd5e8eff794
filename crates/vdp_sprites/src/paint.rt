// What each kept sprite shows, and its dots on the columns of the screen (definition, Drawing).
ghost use Rattle.std.specs.Prelude.{◌≡◌, length};
ghost use Rattle.vdp_sprites.specs.Behind.{under as under_of, behind, meets, behind_all, meets_all};
ghost use Rattle.vdp_sprites.specs.Column.{shown_dot};
ghost use Rattle.vdp_sprites.specs.Shown.{shown, columns_shown};
ghost use Rattle.vdp_sprites.specs.Kept.{shown_kept};

use crate::sprite::{Sprite, Table};
use crate::walk::KeptSprites;
use vdp_draw::dot::{block_dot, solid};

// A dot behind one that stands there.
fn under(old: u8, dot: u8) -> u8
    ensures { result ≡ under_of old dot }
{
    if solid(old) {
        return old;
    }
    if solid(dot) { dot } else { old }
}

// Puts a sprite's leftmost columns behind the dots that stand there; whether a solid dot met another.
fn paint(vram: &[u8], s: Sprite, columns: u16, line: u8, dots: &mut [u8]) -> bool
    ensures dots_after { dots.new
        ≡ behind (shown_dot vram.now line (shown s columns)) (length dots.old) dots.old }
    ensures value { result
        ≡ meets (shown_dot vram.now line (shown s columns)) (length dots.old) dots.old }
{
    let row = (u16::from(line) + 128).saturating_sub(s.y);
    let left = usize::from(s.x);
    let from = left.saturating_sub(128);
    let end = dots
        .len()
        .min((left + usize::from(columns)).saturating_sub(128));
    let mut met = false;
    for x in from..end {
        let dot = block_dot(
            vram,
            s.cell,
            s.columns,
            s.rows,
            row,
            (x + 128 - left) as u16,
        );
        let old = dots[x];
        met |= solid(old) & solid(dot);
        dots[x] = under(old, dot);
    }
    met
}

// How many columns a sprite shows of the pixels that are left.
fn columns_shown(left: usize, masked: bool, s: Sprite) -> u16
    ensures { result ≡ columns_shown left masked s }
{
    if masked {
        0
    } else {
        left.min(8 * usize::from(s.columns)) as u16
    }
}

// Puts the kept sprites on the columns of a line in their order, `began` being used up as the line began; whether two
// solid dots met.
pub(crate) fn paint_kept(
    table: Table<'_>,
    w: &KeptSprites,
    line: u8,
    began: bool,
    dots: &mut [u8],
) -> bool
    ensures dots_after { let shown = shown_kept table.entry.vram.now table.entry.base (length dots.old) began w.now
        in dots.new ≡ behind_all table.entry.vram.now line (length dots.old) shown dots.old }
    ensures value { let shown = shown_kept table.entry.vram.now table.entry.base (length dots.old) began w.now
        in result ≡ meets_all table.entry.vram.now line (length dots.old) shown dots.old }
{
    let mut left = dots.len();
    let mut can_mask = began;
    let mut masked = false;
    let mut met = false;
    for i in w.kept.as_slice() {
        let s = table.sprite_at(*i);
        let columns = columns_shown(left, masked, s);
        met |= paint(table.vram, s, columns, line, dots);
        left = left.saturating_sub(8 * usize::from(s.columns));
        masked |= can_mask & (s.x == 0);
        can_mask |= s.x != 0;
    }
    met
}
