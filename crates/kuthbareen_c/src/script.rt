// Scripts over a state that is lent, and what a caller who makes them asks for, for C programs.
ghost use Rattle.std.specs.Prelude.{◌≡◌};
ghost use Rattle.vdp_state.specs.State.{chip};
ghost use Rattle.vdp_script.specs.Call.{script_item_outcome, script_item};
ghost use Rattle.vdp_script.specs.Judge.{judged};
ghost use Rattle.vdp_script.specs.Run.{script_outcome, run_script};
ghost use Rattle.vdp_script.specs.Write.{write_outcome, write_kind};
ghost use Rattle.vdp_lent.specs.Answer.{with_item_state, with_script_state, judged_as, written_as};

use vdp_lent::answer::{LentItemAnswer, LentJudged, LentScriptAnswer, LentWritten};
use vdp_lent::script;
use vdp_state::state::State;

// Runs a script.
#[unsafe(no_mangle)]
pub extern "C" fn kuthbareen_run_script(
    s: &mut State,
    vram: &mut [u8],
    cartridge: &[u8],
    ram: &[u8],
    pixels: &mut [u8],
    script: &[u8],
) -> LentScriptAnswer
    ensures { script_outcome (with_script_state result s.new) vram.new pixels.new
        ≡ run_script script.now cartridge.now ram.now (chip s.old vram.old) pixels.old }
{
    script::kuthbareen_run_script(s, vram, cartridge, ram, pixels, script)
}

// Makes the call of the item that begins at a byte of a script.
#[unsafe(no_mangle)]
pub extern "C" fn kuthbareen_script_item(
    s: &mut State,
    vram: &mut [u8],
    cartridge: &[u8],
    ram: &[u8],
    pixels: &mut [u8],
    script: &[u8],
    at: usize,
) -> LentItemAnswer
    ensures { script_item_outcome (with_item_state result s.new) vram.new pixels.new
        ≡ script_item script.now at cartridge.now ram.now (chip s.old vram.old) pixels.old }
{
    script::kuthbareen_script_item(s, vram, cartridge, ram, pixels, script, at)
}

// Judges a script as a whole, with this pending flag.
#[unsafe(no_mangle)]
pub extern "C" fn kuthbareen_judge_script(pending: bool, script: &[u8]) -> LentJudged
    ensures { judged_as result ≡ judged pending script.now }
{
    script::kuthbareen_judge_script(pending, script)
}

// Writes the item of a kind with this content at a byte of a script.
#[unsafe(no_mangle)]
pub extern "C" fn kuthbareen_write_item(
    script: &mut [u8],
    at: usize,
    kind: u8,
    content: u16,
) -> LentWritten
    ensures { write_outcome (written_as result) script.new ≡ write_kind script.old at kind content }
{
    script::kuthbareen_write_item(script, at, kind, content)
}
