// The numbers a call may answer (definition, Numbers a call may answer) and the answers that carry them. 9 is never
// given.
ghost use Rattle.std.specs.Prelude.{◌≡◌, Ok};
ghost use Rattle.vdp_state.specs.Answer.{number as number_of, refusal_of, number_in, answer_of, answered as answered_as, outcome, served};
ghost use Rattle.vdp_state.specs.State.{chip};

use crate::cell::{after, store_in};
use crate::state::{State, Step};

// Why a call is refused, each with its number.
#[derive(Clone, Copy, PartialEq, Eq, Debug)]
pub enum Refusal {
    BadState = 1,
    BadBuffer = 2,
    Busy = 3,
    NotModelled = 4,
    NoSuchPlace = 5,
    TapeFull = 6,
    SourceNotLent = 7,
    BadRecord = 8,
    NothingThere = 10,
    BadScript = 11,
    MissingRegister = 12,
}

// The number of a call that is not refused.
pub const DONE: u8 = 0;

impl Refusal {
    // The number that a call answers which is refused so.
    pub fn number(self) -> u8
        ensures { result ≡ number_of self }
    {
        self as u8
    }

    // The refusal that has a number. An Option is plainer than a TryFrom, whose error nobody would read.
    pub fn of(number: u8) -> Option<Refusal>
        ensures { result ≡ refusal_of number }
    {
        match number {
            1 => Some(Refusal::BadState),
            2 => Some(Refusal::BadBuffer),
            3 => Some(Refusal::Busy),
            4 => Some(Refusal::NotModelled),
            5 => Some(Refusal::NoSuchPlace),
            6 => Some(Refusal::TapeFull),
            7 => Some(Refusal::SourceNotLent),
            8 => Some(Refusal::BadRecord),
            10 => Some(Refusal::NothingThere),
            11 => Some(Refusal::BadScript),
            12 => Some(Refusal::MissingRegister),
            _ => None,
        }
    }
}

// The number that a call answers.
pub fn number_in<T: Drop>(answer: &Result<T, Refusal>) -> u8
    ensures { result ≡ number_in answer.now }
{
    match answer {
        Ok(_) => DONE,
        Err(refusal) => refusal.number(),
    }
}

// What a call gives that is done: the word read, units made or visits (else 0), and the state after it.
#[derive(Clone, Copy)]
pub struct Done {
    pub result: u32,
    pub state: State,
}

// A call that is not refused: its step is made.
pub fn made(s: State, t: Step, res: u32) -> Done
    ensures { answer_of s (Ok result) ≡ answered_as 0 s t res }
{
    Done {
        result: res,
        state: after(s, t),
    }
}

// The same for a call that is lent VRAM.
#[tactic(auto, unfolding(crate::specs::Cell::perform))]
pub fn made_with_vram(s: State, vram: &mut [u8], t: Step, res: u32) -> Done
    ensures { outcome (answer_of s (Ok result)) vram.new ≡ served 0 (chip s vram.old) t res }
{
    store_in(vram, t.store);
    made(s, t, res)
}
