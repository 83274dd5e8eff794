// The width of a line (definition, Drawing).
ghost use Rattle.std.specs.Prelude.{◌≡◌};
ghost use Rattle.vdp_draw.specs.Width.{width_of};

pub fn width_of(wide: bool) -> u32
    ensures { result ≡ width_of wide }
{
    if wide { 320 } else { 256 }
}
