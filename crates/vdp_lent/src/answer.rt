// What a call gives to C beside the state that it was lent (definition, Calls for a host program). C has no Result, so
// a number stands beside what else the call has; the state is stored back where the call is done.
ghost use Rattle.std.specs.Prelude.{◌≡◌};
ghost use Rattle.vdp_state.specs.Answer.{answer_of};
ghost use Rattle.vdp_tape.specs.Recorder.{tape_answer_of};
ghost use Rattle.vdp_reader.specs.Deliver.{delivery_answer_of};
ghost use Rattle.vdp_reader.specs.End.{end_answer_of};
ghost use Rattle.vdp_script.specs.Call.{item_answer_of};
ghost use Rattle.vdp_script.specs.Form.{judged_of};
ghost use Rattle.vdp_script.specs.Run.{run_answer_of};
ghost use Rattle.vdp_script.specs.Write.{written_of};
ghost use Rattle.vdp_lent.specs.Answer.{with_state, with_tape_state, with_item_state, with_script_state, with_delivered, judged_as, written_as, ended_as};

use vdp_reader::deliver::Delivery;
use vdp_reader::end::Ended;
use vdp_reader::reader::Reader;
use vdp_script::call::ItemDone;
use vdp_script::form::Fault;
use vdp_script::run::ScriptAnswer;
use vdp_state::answer::{DONE, Done, Refusal, number_in};
use vdp_state::state::State;
use vdp_tape::recorder::Recorded;

// The number, and the word read, the units made or the visits, else 0.
#[repr(C)]
#[derive(Clone, Copy)]
pub struct LentAnswer {
    pub number: u8,
    pub result: u32,
}

// The same of a recorded call and of a step back, with the count of records.
#[repr(C)]
#[derive(Clone, Copy)]
pub struct LentTapeAnswer {
    pub number: u8,
    pub result: u32,
    pub count: usize,
}

// Of a script that was run: the number, and the place of the item that was refused or how many items there are.
#[repr(C)]
#[derive(Clone, Copy)]
pub struct LentScriptAnswer {
    pub number: u8,
    pub place: usize,
}

// Of a script that was judged, which no state is lent to: the same.
#[repr(C)]
#[derive(Clone, Copy)]
pub struct LentJudged {
    pub number: u8,
    pub place: usize,
}

// Of one item's call: the number and the result, and the byte where the script goes on.
#[repr(C)]
#[derive(Clone, Copy)]
pub struct LentItemAnswer {
    pub number: u8,
    pub result: u32,
    pub next: usize,
}

// Of an item that was written: the number, and the byte after it.
#[repr(C)]
#[derive(Clone, Copy)]
pub struct LentWritten {
    pub number: u8,
    pub next: usize,
}

// Of bytes that were delivered: the number, whether a call was made and its result, how many bytes were taken, and the
// reader that is left.
#[repr(C)]
#[derive(Clone, Copy)]
pub struct LentDelivery {
    pub number: u8,
    pub called: bool,
    pub result: u32,
    pub taken: usize,
    pub reader: Reader,
}

// Of the end notice: the number, and the reader that is left.
#[repr(C)]
#[derive(Clone, Copy)]
pub struct LentEnd {
    pub number: u8,
    pub reader: Reader,
}

// Stores the state back that a call gives, for each kind of answer: each struct for C has fields of its own.
pub(crate) fn lend(answer: Result<Done, Refusal>, s: &mut State) -> LentAnswer
    ensures { with_state result s.new ≡ answer_of s.old answer }
{
    match answer {
        Ok(done) => {
            *s = done.state;
            LentAnswer {
                number: DONE,
                result: done.result,
            }
        }
        Err(refusal) => LentAnswer {
            number: refusal.number(),
            result: 0,
        },
    }
}

pub(crate) fn lend_recorded(
    answer: Result<Recorded, Refusal>,
    count: usize,
    s: &mut State,
) -> LentTapeAnswer
    ensures { with_tape_state result s.new ≡ tape_answer_of s.old count answer }
{
    match answer {
        Ok(recorded) => {
            *s = recorded.state;
            LentTapeAnswer {
                number: DONE,
                result: recorded.result,
                count: recorded.count,
            }
        }
        Err(refusal) => LentTapeAnswer {
            number: refusal.number(),
            result: 0,
            count,
        },
    }
}

pub(crate) fn lend_item(
    answer: Result<ItemDone, Refusal>,
    at: usize,
    s: &mut State,
) -> LentItemAnswer
    ensures { with_item_state result s.new ≡ item_answer_of s.old at answer }
{
    match answer {
        Ok(done) => {
            *s = done.state;
            LentItemAnswer {
                number: DONE,
                result: done.result,
                next: done.next,
            }
        }
        Err(refusal) => LentItemAnswer {
            number: refusal.number(),
            result: 0,
            next: at,
        },
    }
}

// A script's state is stored back where an item is refused, too: the calls before it are made.
pub(crate) fn lend_script(answer: ScriptAnswer, s: &mut State) -> LentScriptAnswer
    ensures { with_script_state result s.new ≡ run_answer_of answer }
{
    *s = answer.state;
    let LentJudged { number, place } = LentJudged::from(answer.ended);
    LentScriptAnswer { number, place }
}

pub(crate) fn lend_delivery(delivery: Delivery, s: &mut State) -> LentDelivery
    ensures { with_delivered result s.new ≡ delivery_answer_of delivery }
{
    *s = delivery.state;
    LentDelivery {
        number: number_in(&delivery.answer),
        called: delivery.call.is_some(),
        result: delivery.call.unwrap_or(0),
        taken: delivery.taken,
        reader: delivery.reader,
    }
}

impl From<Result<usize, Fault>> for LentJudged {
    ghost from_gives = { λ answer given. judged_as given ≡ judged_of answer };

    fn from(answer: Result<usize, Fault>) -> LentJudged {
        match answer {
            Ok(items) => LentJudged {
                number: DONE,
                place: items,
            },
            Err(fault) => LentJudged {
                number: fault.refusal.number(),
                place: fault.place,
            },
        }
    }
}

impl From<Result<usize, Refusal>> for LentWritten {
    ghost from_gives = { λ answer given. written_as given ≡ written_of answer };

    fn from(answer: Result<usize, Refusal>) -> LentWritten {
        match answer {
            Ok(next) => LentWritten { number: DONE, next },
            Err(refusal) => LentWritten {
                number: refusal.number(),
                next: 0,
            },
        }
    }
}

impl From<Ended> for LentEnd {
    ghost from_gives = { λ ended given. ended_as given ≡ end_answer_of ended };

    fn from(ended: Ended) -> LentEnd {
        LentEnd {
            number: number_in(&ended.answer),
            reader: ended.reader,
        }
    }
}
