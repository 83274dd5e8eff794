// A script judged as a whole (definition, Scripts, Judging).
ghost use Rattle.std.specs.Prelude.{◌≡◌};
ghost use Rattle.vdp_script.specs.Form.{judged_of};
ghost use Rattle.vdp_script.specs.Judge.{judged};

use crate::form::{Fault, judge_form};
use crate::missing::judge_registers;

// Judges a script that is to be run from a state with this pending flag: its form, and then the registers it names. One
// that is not refused gives how many items it has.
#[tactic(auto, using(crate::proofs::Judges::missing_judged, crate::proofs::Judges::all_judged))]
pub fn judge_script(pending: bool, script: &[u8]) -> Result<usize, Fault>
    ensures { judged_of result ≡ judged pending script.now }
{
    let items = judge_form(script)?;
    judge_registers(pending, script)?;
    Ok(items)
}
