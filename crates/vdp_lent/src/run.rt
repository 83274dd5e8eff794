// The run over a state that is lent (definition, DMA).
ghost use Rattle.std.specs.Prelude.{◌≡◌};
ghost use Rattle.vdp_state.specs.Answer.{outcome};
ghost use Rattle.vdp_state.specs.State.{chip};
ghost use Rattle.vdp_dma.specs.Run.{run as run_outcome};
ghost use Rattle.vdp_lent.specs.Answer.{with_state};

use crate::answer::{LentAnswer, lend};
use vdp_dma::run::run;
use vdp_dma::source::Memories;
use vdp_state::state::State;

// Makes DMA units, at most as many as the budget.
pub fn kuthbareen_run(
    s: &mut State,
    vram: &mut [u8],
    cartridge: &[u8],
    ram: &[u8],
    budget: u32,
) -> LentAnswer
    ensures { outcome (with_state result s.new) vram.new
        ≡ run_outcome (chip s.old vram.old) cartridge.now ram.now budget }
{
    lend(run(*s, vram, Memories { cartridge, ram }, budget), s)
}
