// Cells: what a step does to the state and VRAM, and the step that undoes it (definition, The tape).
ghost use Rattle.std.specs.Prelude.{◌≡◌, ◌+◌, ◌*◌, get_or, set};
ghost use Rattle.vdp_state.specs.State.{chip};
ghost use Rattle.vdp_state.specs.Cell.{word_at, put_word, stored_in, after as state_after, perform as performed, present as present_store, undoing as undoing_step};

use crate::state::{State, Step, Store};

// Reads and stores that are total: past the end a read gives what is given for it and a store changes nothing.
pub fn get_or<T: Copy>(cells: &[T], i: usize, otherwise: T) -> T
    ensures { result ≡ get_or cells.now i otherwise }
{
    cells.get(i).copied().unwrap_or(otherwise)
}

pub fn put<T: Copy>(cells: &mut [T], i: usize, content: T)
    ensures { cells.new ≡ set cells.old i content }
{
    if i < cells.len() {
        cells[i] = content;
    }
}

// Two bytes as a word.
pub fn joined(high: u8, low: u8) -> u16
    ensures { result ≡ high * 256 + low }
{
    u16::from_be_bytes([high, low])
}

// The word at a place, upper byte first; bytes past the end are 0.
pub fn word_at(bytes: &[u8], place: u32) -> u16
    ensures { result ≡ word_at bytes.now place }
{
    let p = place as usize;
    joined(get_or(bytes, p, 0), get_or(bytes, p + 1, 0))
}

pub fn put_word(vram: &mut [u8], place: u16, w: u16)
    ensures { vram.new ≡ put_word vram.old place w }
{
    let p = usize::from(place);
    let [high, low] = w.to_be_bytes();
    put(vram, p, high);
    put(vram, p + 1, low);
}

// Stores a step's cell in VRAM, if that is where it lies.
pub fn store_in(vram: &mut [u8], store: Store)
    ensures { vram.new ≡ stored_in vram.old store }
{
    if let Store::Vram(place, w) = store {
        put_word(vram, place, w);
    }
}

// The state after a step: its cell, if that is one of the state's, and its control part. It changes in place: with
// `State { control, ..s }` a step taken back took 86 ns and not 62.
pub fn after(s: State, t: Step) -> State
    ensures { result ≡ state_after s t }
{
    let mut next = s;
    next.control = t.control;
    match t.store {
        Store::Nothing | Store::Vram(_, _) => {}
        Store::Cram(i, w) => put(&mut next.cram, usize::from(i), w),
        Store::Vsram(i, w) => put(&mut next.vsram, usize::from(i), w),
        Store::Register(i, b) => put(&mut next.registers, usize::from(i), b),
    }
    next
}

// Performs a step on the state and VRAM, which go apart here and in all calls: C lends them so, and many calls take no
// VRAM.
#[tactic(auto, unfolding(crate::specs::Cell::perform))]
pub fn perform(s: State, vram: &mut [u8], t: Step) -> State
    ensures { chip result vram.new ≡ performed (chip s vram.old) t }
{
    store_in(vram, t.store);
    after(s, t)
}

fn present(s: State, vram: &[u8], store: Store) -> Store
    ensures { result ≡ present_store (chip s vram.now) store }
{
    match store {
        Store::Nothing => Store::Nothing,
        Store::Vram(place, _) => Store::Vram(place, word_at(vram, u32::from(place))),
        Store::Cram(i, _) => Store::Cram(i, get_or(&s.cram, usize::from(i), 0)),
        Store::Vsram(i, _) => Store::Vsram(i, get_or(&s.vsram, usize::from(i), 0)),
        Store::Register(i, _) => Store::Register(i, get_or(&s.registers, usize::from(i), 0)),
    }
}

// The step that undoes a step: the control part as it is now, and what the step's cell holds now.
#[tactic(auto, unfolding(crate::specs::Cell::undoing))]
pub fn undoing(s: State, vram: &[u8], t: Step) -> Step
    ensures { result ≡ undoing_step (chip s vram.now) t }
{
    Step {
        control: s.control,
        store: present(s, vram, t.store),
    }
}
