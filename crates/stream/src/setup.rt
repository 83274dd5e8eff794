// The ops that set things up and print nothing.
use crate::fields::set_field;
use crate::generator::scatter;
use crate::held::Held;
use crate::machine::Machine;
use crate::op::{Buffer, Change, SetUp};
use vdp_reader::reader::started;
use vdp_state::fresh::fresh;

// Sets a byte, its place cut to the bytes held.
fn set_byte(bytes: &mut [u8], place: u32, b: u8) {
    if let Some(at) = (place as usize).checked_rem(bytes.len()) {
        bytes[at] = b;
    }
}

fn change_held<const N: usize>(held: &mut Held<N>, change: Change) {
    match change {
        Change::Byte(place, b) => set_byte(&mut held.bytes, place, b),
        Change::Generated(seed) => scatter(&mut held.bytes, seed),
        Change::Same(b) => held.bytes.fill(b),
        Change::Length(length) => held.set_length(length as usize),
    }
}

fn change_buffer(m: &mut Machine, buffer: Buffer, change: Change) {
    match buffer {
        Buffer::Vram => change_held(&mut m.vram, change),
        Buffer::Pixels => change_held(&mut m.pixels, change),
        Buffer::WorkRam => change_held(&mut m.memories.ram, change),
        Buffer::Cartridge => change_held(&mut m.memories.cartridge, change),
        Buffer::Tape => change_held(&mut m.tape, change),
        Buffer::Row => change_held(&mut m.row, change),
        Buffer::Script => change_held(&mut m.script, change),
    }
}

pub(crate) fn set_up(m: &mut Machine, step: SetUp) {
    match step {
        SetUp::Reader => m.reader = started(),
        SetUp::Field(field, index, c) => set_field(&mut m.state, field, index, c),
        SetUp::Fresh(pal) => m.state = fresh(pal),
        SetUp::Buffer(buffer, change) => change_buffer(m, buffer, change),
        SetUp::Count(count) => m.count = count as usize,
        SetUp::Recorded(recorded) => m.recorded = recorded,
    }
}
