// The run over a state that is lent, for C programs.
ghost use Rattle.std.specs.Prelude.{◌≡◌};
ghost use Rattle.vdp_state.specs.Answer.{outcome};
ghost use Rattle.vdp_state.specs.State.{chip};
ghost use Rattle.vdp_dma.specs.Run.{run as run_outcome};
ghost use Rattle.vdp_lent.specs.Answer.{with_state};

use vdp_lent::answer::LentAnswer;
use vdp_lent::run;
use vdp_state::state::State;

// Makes DMA units, at most as many as the budget.
#[unsafe(no_mangle)]
pub extern "C" fn kuthbareen_run(
    s: &mut State,
    vram: &mut [u8],
    cartridge: &[u8],
    ram: &[u8],
    budget: u32,
) -> LentAnswer
    ensures { outcome (with_state result s.new) vram.new
        ≡ run_outcome (chip s.old vram.old) cartridge.now ram.now budget }
{
    run::kuthbareen_run(s, vram, cartridge, ram, budget)
}
