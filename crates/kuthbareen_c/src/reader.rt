// The reader over a state that is lent, for C programs.
ghost use Rattle.std.specs.Prelude.{◌≡◌};
ghost use Rattle.vdp_state.specs.State.{chip};
ghost use Rattle.vdp_reader.specs.Deliver.{deliver_outcome, deliver as delivered};
ghost use Rattle.vdp_reader.specs.End.{end_notice};
ghost use Rattle.vdp_reader.specs.Reader.{started as started_anew};
ghost use Rattle.vdp_lent.specs.Answer.{ended_as, with_delivered};

use vdp_lent::answer::{LentDelivery, LentEnd};
use vdp_lent::reader;
use vdp_reader::reader::Reader;
use vdp_state::state::State;

// A reader that is started anew.
#[unsafe(no_mangle)]
pub extern "C" fn kuthbareen_start_reader() -> Reader
    ensures { result ≡ started_anew }
{
    reader::kuthbareen_start_reader()
}

// Delivers bytes to a reader, which makes one call at most.
#[unsafe(no_mangle)]
pub extern "C" fn kuthbareen_deliver(
    s: &mut State,
    vram: &mut [u8],
    cartridge: &[u8],
    ram: &[u8],
    pixels: &mut [u8],
    reader: Reader,
    bytes: &[u8],
) -> LentDelivery
    ensures { deliver_outcome (with_delivered result s.new) vram.new pixels.new
        ≡ delivered reader bytes.now cartridge.now ram.now (chip s.old vram.old) pixels.old }
{
    reader::kuthbareen_deliver(s, vram, cartridge, ram, pixels, reader, bytes)
}

// Tells a reader that no more bytes come.
#[unsafe(no_mangle)]
pub extern "C" fn kuthbareen_end_notice(reader: Reader) -> LentEnd
    ensures { ended_as result ≡ end_notice reader }
{
    reader::kuthbareen_end_notice(reader)
}
