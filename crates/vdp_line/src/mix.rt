// Mixing (definition, Drawing): what lies in front on a column.
ghost use Rattle.std.specs.Prelude.{◌≡◌};
ghost use Rattle.vdp_line.specs.Mix.{in_front, mix as mixed};

use vdp_draw::dot::{high, solid};

// The dots of a column: plane B's, that of plane A or the window, and the sprites'.
#[derive(Clone, Copy)]
pub(crate) struct Dots {
    pub b: u8,
    pub a: u8,
    pub sprite: u8,
}

// Whether a dot is solid and of high priority.
pub(crate) fn in_front(dot: u8) -> bool
    ensures { result ≡ in_front dot }
{
    solid(dot) & high(dot)
}

// The colour index that shows: that of the front dot of high priority, else that of the front dot.
#[tactic(auto, unfolding(crate::specs::Mix::mix))]
pub(crate) fn mix(backdrop: u8, dots: Dots) -> u8
    ensures { result ≡ mixed backdrop dots.b dots.a dots.sprite }
{
    let Dots { b, a, sprite } = dots;
    let low = if solid(sprite) {
        sprite % 64
    } else if solid(a) {
        a % 64
    } else if solid(b) {
        b % 64
    } else {
        backdrop
    };
    if in_front(sprite) {
        sprite % 64
    } else if in_front(a) {
        a % 64
    } else if in_front(b) {
        b % 64
    } else {
        low
    }
}
