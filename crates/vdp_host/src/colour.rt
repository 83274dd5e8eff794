// A colour word's three parts as one number (definition, Calls for a host program).
ghost use Rattle.std.specs.Prelude.{◌≡◌};
ghost use Rattle.vdp_ports.specs.Parts.{colour_parts};
ghost use Rattle.vdp_host.specs.Packed.{packed};

use vdp_ports::parts::colour_parts;

// The parts of a colour word, given register 0: 256 x blue + 16 x green + red. No word is refused.
pub fn kuthbareen_colour_parts(w: u16, register0: u8) -> u32
    ensures { result ≡ packed (colour_parts w register0) }
{
    let parts = colour_parts(w, register0);
    256 * u32::from(parts.blue) + 16 * u32::from(parts.green) + u32::from(parts.red)
}
