// A script as the program `script` judges it: it has a limit on the length, and begins in a fresh state (definition,
// Scripts, The program).
ghost use Rattle.std.specs.Prelude.{◌≡◌};
ghost use Rattle.vdp_script.specs.Admitted.{admitted as admitted_as};
ghost use Rattle.vdp_script.specs.Form.{judged_of};

use crate::form::Fault;
use crate::judge::judge_script;
use vdp_state::answer::Refusal;

pub const MOST_BYTES: usize = 16384;

pub fn admitted(script: &[u8]) -> Result<usize, Fault>
    ensures { judged_of result ≡ admitted_as script.now }
{
    if MOST_BYTES < script.len() {
        return Err(Fault {
            refusal: Refusal::BadBuffer,
            place: 0,
        });
    }
    judge_script(false, script)
}
