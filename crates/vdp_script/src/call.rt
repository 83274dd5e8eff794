// The call of an item (definition, Scripts, Running): the plain call that it stands for.
ghost use Rattle.std.specs.Prelude.{◌≡◌};
ghost use Rattle.vdp_state.specs.Answer.{answer_of};
ghost use Rattle.vdp_state.specs.State.{chip};
ghost use Rattle.vdp_script.specs.Call.{item_outcome, call_item, item_answer_of, script_item_outcome, script_item};

use crate::item::{Item, item_at};
use vdp_dma::run::run;
use vdp_dma::source::Memories;
use vdp_line::line::line;
use vdp_ports::control::control_write;
use vdp_ports::data::{data_read, data_write};
use vdp_ports::frame::new_frame;
use vdp_ports::status::status_read;
use vdp_state::answer::{Done, Refusal};
use vdp_state::state::State;

// What the call of an item gives that is done, with the byte where the script goes on.
#[derive(Clone, Copy)]
pub struct ItemDone {
    pub result: u32,
    pub next: usize,
    pub state: State,
}

// Makes the call of an item. The buffers go one by one, as C lends them: with a struct of them each contract would also
// have to say that it holds the same ones as before.
pub fn call_item(
    s: State,
    vram: &mut [u8],
    memories: Memories,
    pixels: &mut [u8],
    item: Item,
) -> Result<Done, Refusal>
    ensures { item_outcome (answer_of s result) vram.new pixels.new
        ≡ call_item item memories.entry.cartridge.now memories.entry.ram.now (chip s vram.old) pixels.old }
{
    match item {
        Item::ControlWord(w) => control_write(s, w),
        Item::DataWord(w) => data_write(s, vram, w),
        Item::DataRead => data_read(s, vram),
        Item::StatusRead => status_read(s),
        Item::Run(budget) => run(s, vram, memories, u32::from(budget)),
        Item::Line(n) => line(s, vram, u32::from(n), pixels),
        Item::NewFrame => new_frame(s),
    }
}

// Makes the call of the item that begins at a byte of a script.
pub fn script_item(
    s: State,
    vram: &mut [u8],
    memories: Memories,
    pixels: &mut [u8],
    script: &[u8],
    at: usize,
) -> Result<ItemDone, Refusal>
    ensures { script_item_outcome (item_answer_of s at result) vram.new pixels.new
        ≡ script_item script.now at memories.entry.cartridge.now memories.entry.ram.now (chip s vram.old) pixels.old }
{
    let item = item_at(script, at).ok_or(Refusal::BadScript)?;
    let done = call_item(s, vram, memories, pixels, item)?;
    Ok(ItemDone {
        result: done.result,
        next: at + item.size(),
        state: done.state,
    })
}
