// Shadow and highlight (definition, Drawing): the intensity of a column, and its pixel byte.
ghost use Rattle.std.specs.Prelude.{◌≡◌, true, ◌<◌};
ghost use Rattle.vdp_line.specs.Intensity.{intensity_in, sprite_drawn, behind_sprites, sprite_in_front, raised as raised_of, under_sprite, shade as shade_of, pixel as pixel_of};

use crate::mix::{Dots, in_front, mix};
use vdp_draw::dot::{high, solid};

// The intensities, each with what it adds to a colour index.
#[derive(Clone, Copy, PartialEq, Eq, Debug)]
enum Intensity {
    Normal = 0,
    Half = 64,
    Double = 128,
}

impl Intensity {
    // What it adds: a method with a name, as `From` would not say of what the number is.
    fn number(self) -> u8
        ensures { result ≡ intensity_in self }
    {
        self as u8
    }
}

// The colour indexes that a sprite does not draw.
const DARKENS: u8 = 62;

const LIGHTENS: u8 = 63;

// What is drawn of the sprites' dot with shadow and highlight: nothing of an operator.
fn sprite_drawn(sprite: u8) -> u8
    ensures { result ≡ sprite_drawn true sprite }
{
    match sprite % 64 {
        DARKENS | LIGHTENS => 0,
        _ => sprite,
    }
}

// The intensity of backdrop and planes: priority counts, solid or clear.
fn behind_sprites(dots: Dots) -> Intensity
    ensures { intensity_in result ≡ behind_sprites dots.b dots.a }
{
    if high(dots.a) | high(dots.b) {
        Intensity::Normal
    } else {
        Intensity::Half
    }
}

// Whether the sprites' dot lies in front of both planes.
fn sprite_in_front(dots: Dots) -> bool
    ensures { result ≡ sprite_in_front dots.b dots.a dots.sprite }
{
    solid(dots.sprite) & (high(dots.sprite) | !(in_front(dots.a) | in_front(dots.b)))
}

// One step up from half or normal.
fn raised(there: Intensity) -> Intensity
    ensures { intensity_in result ≡ raised_of (intensity_in there) }
{
    match there {
        Intensity::Half => Intensity::Normal,
        _ => Intensity::Double,
    }
}

// What a sprites' dot in front makes of the intensity there.
fn under_sprite(sprite: u8, there: Intensity) -> Intensity
    ensures { intensity_in result ≡ under_sprite sprite (intensity_in there) }
{
    match sprite % 64 {
        DARKENS => Intensity::Half,
        LIGHTENS => raised(there),
        _ if high(sprite) | (sprite % 16 == 14) => Intensity::Normal,
        _ => there,
    }
}

// The intensity of a column with shadow and highlight.
fn shade(dots: Dots) -> Intensity
    ensures { intensity_in result ≡ shade_of dots.b dots.a dots.sprite }
{
    let there = behind_sprites(dots);
    if sprite_in_front(dots) {
        under_sprite(dots.sprite, there)
    } else {
        there
    }
}

// The pixel byte of a column with shadow and highlight.
#[tactic(auto, unfolding(crate::specs::Intensity::pixel, crate::specs::Intensity::intensity))]
pub(crate) fn shaded(backdrop: u8, dots: Dots) -> u8
    requires { backdrop < 64 }
    ensures { result ≡ pixel_of true backdrop dots.b dots.a dots.sprite }
{
    let drawn = Dots {
        sprite: sprite_drawn(dots.sprite),
        ..dots
    };
    mix(backdrop, drawn) + shade(dots).number()
}
