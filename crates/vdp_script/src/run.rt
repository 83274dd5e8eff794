// A script that is run (definition, Scripts, Running).
ghost use Rattle.std.specs.Prelude.{◌≡◌};
ghost use Rattle.vdp_state.specs.State.{chip};
ghost use Rattle.vdp_script.specs.Run.{run_answer_of, script_outcome, run_script};

use crate::call::call_item;
use crate::form::{Fault, items_of};
use crate::judge::judge_script;
use vdp_dma::source::Memories;
use vdp_state::state::State;

// How many items there are, or what was refused and at which place, and the state.
#[derive(Clone, Copy)]
pub struct ScriptAnswer {
    pub ended: Result<usize, Fault>,
    pub state: State,
}

// Runs a script: it is judged as a whole, and then its plain calls are made in their order, up to the first that is
// refused.
pub fn run_script(
    s: State,
    vram: &mut [u8],
    memories: Memories,
    pixels: &mut [u8],
    script: &[u8],
) -> ScriptAnswer
    ensures { script_outcome (run_answer_of result) vram.new pixels.new
        ≡ run_script script.now memories.entry.cartridge.now memories.entry.ram.now (chip s vram.old) pixels.old }
{
    let mut state = s;
    let ended = judge_script(s.control.port.pending, script);
    if ended.is_err() {
        return ScriptAnswer { ended, state };
    }
    for (place, item) in items_of(script).enumerate() {
        match call_item(state, vram, memories, pixels, item) {
            Ok(done) => state = done.state,
            Err(refusal) => {
                let ended = Err(Fault { refusal, place });
                return ScriptAnswer { ended, state };
            }
        }
    }
    ScriptAnswer { ended, state }
}
