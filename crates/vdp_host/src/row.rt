// The eight unflipped pixels of a pattern's row (definition, Calls for a host program and Drawing).
ghost use Rattle.std.specs.Prelude.{◌≡◌};
ghost use Rattle.vdp_state.specs.Answer.{number_in};
ghost use Rattle.vdp_draw.specs.Pattern.{row_pixels};
ghost use Rattle.vdp_host.specs.Row.{row_outcome, pattern_row};

use vdp_draw::pattern::pattern_pixel;
use vdp_ports::refusal::VRAM_SIZE;
use vdp_state::answer::Refusal;

const ROW_SIZE: usize = 8;

const LAST_NAME: u16 = 2047;

const LAST_ROW: u8 = 7;

fn row_pixels(vram: &[u8], name: u16, row: u8) -> [u8; ROW_SIZE]
    ensures { result ≡ row_pixels vram.now name row }
{
    [0, 1, 2, 3, 4, 5, 6, 7].map(|column| pattern_pixel(vram, name, row, column))
}

// Writes the pixels of a pattern name's row, left to right.
pub fn pattern_row(vram: &[u8], name: u16, row: u8, pixels: &mut [u8]) -> Result<(), Refusal>
    ensures { row_outcome (number_in result) pixels.new
        ≡ pattern_row vram.now name row pixels.old }
{
    if (vram.len() != VRAM_SIZE) | (pixels.len() != ROW_SIZE) {
        return Err(Refusal::BadBuffer);
    }
    if (LAST_NAME < name) | (LAST_ROW < row) {
        return Err(Refusal::NoSuchPlace);
    }
    pixels.copy_from_slice(&row_pixels(vram, name, row));
    Ok(())
}
