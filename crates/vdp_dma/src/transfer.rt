// Transfer runs: the words of one part of memory after the other.
ghost use Rattle.std.specs.Prelude.{◌≡◌, ◌≤◌, ◌<◌, ◌/◌, length};
ghost use Rattle.vdp_state.specs.Cell.{stored_in};
ghost use Rattle.vdp_state.specs.State.{chip};
ghost use Rattle.vdp_dma.specs.Run.{ran};
ghost use Rattle.vdp_dma.specs.Transfer.{colours_in, scrolls_in, moved, Ready};

use crate::source::{Memories, next_source};
use crate::unit::units_control;
use vdp_ports::access::{access_of, written};
use vdp_ports::data::advanced;
use vdp_ports::length::Words;
use vdp_ports::refusal::VRAM_SIZE;
use vdp_state::cell::{put, put_word};
use vdp_state::state::{State, Store};

// Stores a moved word in the memory that it is for.
fn store_word(
    store: Store,
    vram: &mut [u8; VRAM_SIZE],
    colours: &mut [u16; 64],
    scrolls: &mut [u16; 40],
)
    ensures { (vram.new ≡ stored_in vram.old store)
        × (colours.new ≡ colours_in colours.old store)
        × (scrolls.new ≡ scrolls_in scrolls.old store) }
{
    match store {
        Store::Nothing | Store::Register(_, _) => {}
        Store::Vram(place, w) => put_word(vram, place, w),
        Store::Cram(i, w) => put(colours, usize::from(i), w),
        Store::Vsram(i, w) => put(scrolls, usize::from(i), w),
    }
}

// Moves the words of a part. The loop carries what a word changes: the port, the source, colours and scroll words.
fn move_part(s: State, vram: &mut [u8; VRAM_SIZE], part: &[u8]) -> State
    requires { (0 < s.control.dma.remaining) × (length part.now / 2 ≤ s.control.dma.remaining) }
    ensures { chip result vram.new ≡ moved part.now (chip s vram.old) }
{
    let increment = s.registers[15];
    let access = access_of(s.control.port.code);
    let (words, _) = part.as_chunks::<2>();
    let mut port = s.control.port;
    let mut source = s.control.dma.source;
    let mut colours = s.cram;
    let mut scrolls = s.vsram;
    for word in words {
        let store = written(access, port.address, u16::from_be_bytes(*word));
        store_word(store, vram, &mut colours, &mut scrolls);
        port = advanced(port, increment);
        source = next_source(source);
    }
    State {
        cram: colours,
        vsram: scrolls,
        control: units_control(s.control, port, words.len() as u32, source),
        ..s
    }
}

// Moves n words, part by part. A loop of its own: which part comes next is known only once the one before is moved.
pub(crate) fn transfer_units(
    s: State,
    vram: &mut [u8; VRAM_SIZE],
    memories: Memories,
    n: Words,
) -> State
    requires ready { 0 < n.0 → Ready memories.cartridge.now s.control.dma n.0 }
    requires sizes { (length memories.cartridge.now ≤ 4194304) × (length memories.ram.now ≡ 65536) }
    ensures { chip result vram.new
        ≡ ran memories.entry.cartridge.now memories.entry.ram.now n.0 (chip s vram.old) }
{
    let mut next = s;
    let mut left = n.0;
    loop {
        let part = memories.words_next(next.control.dma.source, Words(left));
        let moved = (part.len() / 2) as u32;
        if moved == 0 {
            return next;
        }
        next = move_part(next, vram, part);
        left -= moved;
    }
}
