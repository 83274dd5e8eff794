// The calls for a host program that need no state, for C programs.
ghost use Rattle.std.specs.Prelude.{◌≡◌};
ghost use Rattle.vdp_ports.specs.Parts.{colour_parts};
ghost use Rattle.vdp_host.specs.Packed.{packed};
ghost use Rattle.vdp_host.specs.Row.{row_outcome, pattern_row};

use vdp_host::colour;
use vdp_host::row::pattern_row;
use vdp_state::answer::number_in;

// The parts of a colour word, given register 0: 256 x blue + 16 x green + red. No word is refused.
#[unsafe(no_mangle)]
pub extern "C" fn kuthbareen_colour_parts(w: u16, register0: u8) -> u32
    ensures { result ≡ packed (colour_parts w register0) }
{
    colour::kuthbareen_colour_parts(w, register0)
}

// Writes the pixels of a pattern name's row, left to right, and answers a number, as C has no Result.
#[unsafe(no_mangle)]
pub extern "C" fn kuthbareen_pattern_row(vram: &[u8], name: u16, row: u8, pixels: &mut [u8]) -> u8
    ensures { row_outcome result pixels.new ≡ pattern_row vram.now name row pixels.old }
{
    number_in(&pattern_row(vram, name, row, pixels))
}
