// Bytes that are delivered to a reader, up to the first call (definition, Scripts, The reader).
ghost use Rattle.std.specs.Prelude.{◌≡◌};
ghost use Rattle.vdp_state.specs.Answer.{number_in};
ghost use Rattle.vdp_state.specs.State.{chip};
ghost use Rattle.vdp_reader.specs.Deliver.{reach, after_call, delivery_answer_of, uncalled_with, deliver_outcome, item_reached, deliver as delivered};

use crate::reader::{Reader, answers, at_stage, goes_on, stopped};
use crate::stage::Stage;
use crate::take::{Taking, take_byte};
use vdp_dma::source::Memories;
use vdp_script::call::call_item;
use vdp_script::item::Item;
use vdp_script::missing::names_missing;
use vdp_state::answer::Refusal;
use vdp_state::state::State;

// How many bytes were taken, and what the last of them led to.
#[derive(Clone, Copy)]
pub struct Reached {
    pub taken: usize,
    pub taking: Taking,
}

// What a delivery answers, the result of the call if one was made, how many bytes were taken, and what is handed on.
#[derive(Clone, Copy)]
pub struct Delivery {
    pub answer: Result<(), Refusal>,
    pub call: Option<u32>,
    pub taken: usize,
    pub reader: Reader,
    pub state: State,
}

// Takes bytes up to the one that makes an item whole or is faulty.
fn take_bytes(reader: Reader, bytes: &[u8]) -> Reached
    ensures { result ≡ reach reader bytes.now }
{
    let mut kept = reader;
    for (i, byte) in bytes.iter().enumerate() {
        match take_byte(kept, *byte) {
            Taking::Kept(next) => kept = next,
            taking => {
                return Reached {
                    taken: i + 1,
                    taking,
                };
            }
        }
    }
    Reached {
        taken: bytes.len(),
        taking: Taking::Kept(kept),
    }
}

// The reader after a call that answered so.
fn after_call(answer: Result<(), Refusal>) -> Reader
    ensures { result ≡ after_call (number_in answer) }
{
    match answer {
        Ok(()) => at_stage(Stage::Between),
        Err(_) => stopped(answer),
    }
}

// A delivery that makes no call.
fn uncalled(reader: Reader, taken: usize, s: State) -> Delivery
    ensures { delivery_answer_of result ≡ uncalled_with reader taken s }
{
    Delivery {
        answer: answers(reader),
        call: None,
        taken,
        reader,
        state: s,
    }
}

// An item that is whole: its call is made, if it names no missing register. The buffers go one by one, as for
// `call_item`.
fn deliver_item(
    s: State,
    vram: &mut [u8],
    memories: Memories,
    pixels: &mut [u8],
    item: Item,
    taken: usize,
) -> Delivery
    ensures { deliver_outcome (delivery_answer_of result) vram.new pixels.new
        ≡ item_reached item taken memories.entry.cartridge.now memories.entry.ram.now (chip s vram.old) pixels.old }
{
    if names_missing(s.control.port.pending, item) {
        return uncalled(stopped(Err(Refusal::MissingRegister)), taken, s);
    }
    match call_item(s, vram, memories, pixels, item) {
        Ok(done) => Delivery {
            answer: Ok(()),
            call: Some(done.result),
            taken,
            reader: after_call(Ok(())),
            state: done.state,
        },
        Err(refusal) => Delivery {
            answer: Err(refusal),
            call: Some(0),
            taken,
            reader: after_call(Err(refusal)),
            state: s,
        },
    }
}

// Delivers bytes to a reader, which makes one call at most; the caller goes on with the bytes that were not taken.
pub fn deliver(
    s: State,
    vram: &mut [u8],
    memories: Memories,
    pixels: &mut [u8],
    reader: Reader,
    bytes: &[u8],
) -> Delivery
    ensures { deliver_outcome (delivery_answer_of result) vram.new pixels.new
        ≡ delivered reader bytes.now memories.entry.cartridge.now memories.entry.ram.now (chip s vram.old) pixels.old }
{
    if !goes_on(reader) {
        return uncalled(reader, 0, s);
    }
    let Reached { taken, taking } = take_bytes(reader, bytes);
    match taking {
        Taking::Kept(next) => uncalled(next, taken, s),
        Taking::Whole(item) => deliver_item(s, vram, memories, pixels, item, taken),
        Taking::Faulty => uncalled(stopped(Err(Refusal::BadScript)), taken, s),
    }
}
