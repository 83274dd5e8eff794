// What a reader keeps between deliveries (definition, Scripts, The reader).
ghost use Rattle.std.specs.Prelude.{◌≡◌, eqb};
ghost use Rattle.vdp_state.specs.Answer.{number_in};
ghost use Rattle.vdp_reader.specs.Reader.{has_content, may_answer, at_stage as in_stage, started as started_anew, stopped as stopped_with, in_range, goes_on, answers as answers_of};
ghost use Rattle.vdp_reader.specs.Stage.{stage_number};

use crate::stage::Stage;
use vdp_script::item::item_from;
use vdp_state::answer::{DONE, Refusal, number_in};

// The number of a stage, what is kept of an unfinished item, and, stopped, the number that it answers. All are numbers,
// since a reader that C lends may have some that there are not, and is then refused.
#[repr(C)]
#[derive(Clone, Copy)]
pub struct Reader {
    pub stage: u8,
    pub kind: u8,
    pub upper: u8,
    pub number: u8,
}

impl Reader {
    // Whether a reader is in a stage.
    pub(crate) fn is(self, stage: Stage) -> bool
        ensures { result ≡ eqb self.stage (stage_number stage) }
    {
        self.stage == stage as u8
    }
}

// Whether items of a kind have a content; the kind is a number, since any byte may come.
pub(crate) fn has_content(kind: u8) -> bool
    ensures { result ≡ has_content kind }
{
    item_from(kind, 0).is_some_and(|item| item.content().is_some())
}

// A reader in a stage that keeps nothing else.
pub(crate) fn at_stage(stage: Stage) -> Reader
    ensures { result ≡ in_stage (stage_number stage) }
{
    Reader {
        stage: stage as u8,
        kind: 0,
        upper: 0,
        number: DONE,
    }
}

// A reader that is started anew.
pub fn started() -> Reader
    ensures { result ≡ started_anew }
{
    at_stage(Stage::Anew)
}

pub(crate) fn stopped(answer: Result<(), Refusal>) -> Reader
    ensures { result ≡ stopped_with (number_in answer) }
{
    Reader {
        number: number_in(&answer),
        ..at_stage(Stage::Stopped)
    }
}

// Whether a call may answer a number.
fn may_answer(number: u8) -> bool
    ensures { result ≡ may_answer number }
{
    (number == DONE) | Refusal::of(number).is_some()
}

// Whether a reader is in a row of the table of stages.
#[tactic(auto, unfolding(crate::specs::Reader::in_range))]
pub fn in_range(reader: Reader) -> bool
    ensures { result ≡ in_range reader }
{
    let bare = (reader.kind == 0) & (reader.upper == 0);
    let going = reader.number == DONE;
    match Stage::of(reader.stage) {
        None => false,
        Some(Stage::AtUpper) => has_content(reader.kind) & (reader.upper == 0) & going,
        Some(Stage::AtLower) => has_content(reader.kind) & going,
        Some(Stage::Stopped) => bare & may_answer(reader.number),
        Some(_) => bare & going,
    }
}

// Whether a reader takes bytes.
pub(crate) fn goes_on(reader: Reader) -> bool
    ensures { result ≡ goes_on reader }
{
    in_range(reader) & !reader.is(Stage::Stopped)
}

// What a call answers that leaves this reader.
#[tactic(auto, using(crate::proofs::Readers::answers_zero))]
pub(crate) fn answers(reader: Reader) -> Result<(), Refusal>
    ensures { number_in result ≡ answers_of reader }
{
    if !in_range(reader) {
        return Err(Refusal::BadState);
    }
    match Refusal::of(reader.number) {
        None => Ok(()),
        Some(refusal) => Err(refusal),
    }
}
