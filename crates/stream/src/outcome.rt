// What a call answers, as a line shows it: a number, 0 if it is done, and a result. The number stays, since it is what
// is printed; a script that is refused has a result too.
ghost use Rattle.std.specs.Prelude.{◌≡◌};
ghost use Rattle.stream.specs.Outcome.{outcome_of, script_outcome_of};

use vdp_script::form::Fault;
use vdp_state::answer::{DONE, Refusal, number_in};

#[derive(Clone, Copy, PartialEq, Eq, Debug)]
pub struct Outcome {
    pub number: u8,
    pub result: u64,
}

// The result of a call that is refused is 0.
impl From<Result<u64, Refusal>> for Outcome {
    ghost from_gives = { λ answer outcome. outcome ≡ outcome_of answer };

    fn from(answer: Result<u64, Refusal>) -> Self {
        Outcome {
            number: number_in(&answer),
            result: answer.unwrap_or(0),
        }
    }
}

// A script: how many items it has, or the place of the item that is at fault.
impl From<Result<usize, Fault>> for Outcome {
    ghost from_gives = { λ answer outcome. outcome ≡ script_outcome_of answer };

    fn from(answer: Result<usize, Fault>) -> Self {
        match answer {
            Ok(items) => Outcome {
                number: DONE,
                result: items as u64,
            },
            Err(fault) => Outcome {
                number: fault.refusal.number(),
                result: fault.place as u64,
            },
        }
    }
}
