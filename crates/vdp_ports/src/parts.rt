// A colour word's three parts, as register 0 lets them show (definition, Calls for a host program; notes s17).
ghost use Rattle.std.specs.Prelude.{◌≡◌};
ghost use Rattle.vdp_ports.specs.Parts.{shown as shown_part, colour_parts};

use vdp_state::colour::{Parts, parts_of};

// A part as the chip shows it: with register 0 bit 2 clear, its lowest bit alone.
fn shown(register0: u8, part: u8) -> u8
    ensures { result ≡ shown_part register0 part }
{
    if register0 / 4 % 2 == 0 {
        part % 2
    } else {
        part
    }
}

// The parts of a colour word, given register 0. Bits outside 0EEEh are ignored.
pub fn colour_parts(w: u16, register0: u8) -> Parts
    ensures { result ≡ colour_parts w register0 }
{
    let parts = parts_of(w);
    Parts {
        blue: shown(register0, parts.blue),
        green: shown(register0, parts.green),
        red: shown(register0, parts.red),
    }
}
