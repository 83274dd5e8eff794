// The reader over a state that is lent (definition, Scripts, The reader).
ghost use Rattle.std.specs.Prelude.{◌≡◌};
ghost use Rattle.vdp_state.specs.State.{chip};
ghost use Rattle.vdp_reader.specs.Deliver.{deliver_outcome, deliver as delivered};
ghost use Rattle.vdp_reader.specs.End.{end_notice};
ghost use Rattle.vdp_reader.specs.Reader.{started as started_anew};
ghost use Rattle.vdp_lent.specs.Answer.{ended_as, with_delivered};

use crate::answer::{LentDelivery, LentEnd, lend_delivery};
use vdp_dma::source::Memories;
use vdp_reader::deliver::deliver;
use vdp_reader::end::end_notice;
use vdp_reader::reader::{Reader, started};
use vdp_state::state::State;

// A reader that is started anew.
pub fn kuthbareen_start_reader() -> Reader
    ensures { result ≡ started_anew }
{
    started()
}

// Delivers bytes to a reader, which makes one call at most.
pub fn kuthbareen_deliver(
    s: &mut State,
    vram: &mut [u8],
    cartridge: &[u8],
    ram: &[u8],
    pixels: &mut [u8],
    reader: Reader,
    bytes: &[u8],
) -> LentDelivery
    ensures { deliver_outcome (with_delivered result s.new) vram.new pixels.new
        ≡ delivered reader bytes.now cartridge.now ram.now (chip s.old vram.old) pixels.old }
{
    lend_delivery(
        deliver(*s, vram, Memories { cartridge, ram }, pixels, reader, bytes),
        s,
    )
}

// Tells a reader that no more bytes come.
pub fn kuthbareen_end_notice(reader: Reader) -> LentEnd
    ensures { ended_as result ≡ end_notice reader }
{
    end_notice(reader).into()
}
