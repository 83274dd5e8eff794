// A case: the machine that it drives, its name and what its last call answered.
use crate::text::Place;
use stream::machine::{Machine, start};
use stream::outcome::Outcome;

// The digests of the state and of VRAM when they were marked.
#[derive(Clone, Copy)]
pub(crate) struct Marks {
    pub state: u32,
    pub vram: u32,
}

#[derive(Drop)]
pub(crate) struct Case<'a> {
    pub machine: Machine,
    // where the text goes on
    pub place: Place<'a>,
    // none where the line of the case is only `=`
    pub name: Option<&'a [u8]>,
    // where the group of items begins that is repeated, and how often it is still to be done
    pub group: Place<'a>,
    pub times: u32,
    // what the last call answered
    pub last: Outcome,
    pub marks: Marks,
}

// A case that goes on at a place of the text; before the first case it has an empty name.
pub(crate) fn named<'a>(name: Option<&'a [u8]>, place: Place<'a>, marks: Marks) -> Case<'a> {
    Case {
        machine: start(),
        place,
        name,
        group: place,
        times: 0,
        last: Outcome {
            number: 0,
            result: 0,
        },
        marks,
    }
}
