// The end notice to a reader (definition, Scripts, The reader).
ghost use Rattle.std.specs.Prelude.{◌≡◌};
ghost use Rattle.vdp_reader.specs.End.{end_answer_of, ended, end_notice};

use crate::reader::{Reader, answers, goes_on, stopped};
use crate::stage::Stage;
use vdp_state::answer::Refusal;

// What the end notice answers, and the reader that is left.
#[derive(Clone, Copy)]
pub struct Ended {
    pub answer: Result<(), Refusal>,
    pub reader: Reader,
}

// The reader after the end notice.
fn noticed(reader: Reader) -> Reader
    ensures { result ≡ ended reader }
{
    if !goes_on(reader) {
        return reader;
    }
    if reader.is(Stage::Between) {
        stopped(Ok(()))
    } else {
        stopped(Err(Refusal::BadScript))
    }
}

// Tells a reader that no more bytes come.
pub fn end_notice(reader: Reader) -> Ended
    ensures { end_answer_of result ≡ end_notice reader }
{
    let left = noticed(reader);
    Ended {
        answer: answers(left),
        reader: left,
    }
}
