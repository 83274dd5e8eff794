// Op 32: one number of the state, cut to its type by a remainder.
use vdp_state::state::State;

// Sets the field of this number, one of several by its index. The numbers stand in this match alone: an enum of the
// fields would list them once more.
pub(crate) fn set_field(s: &mut State, field: u8, index: u16, c: u32) {
    let i = usize::from(index);
    let truth = c % 2 == 1;
    let byte = (c % 256) as u8;
    let word = (c % 65536) as u16;
    match field {
        0 => s.registers[i % 24] = byte,
        1 => s.cram[i % 64] = word,
        2 => s.vsram[i % 40] = word,
        3 => s.control.port.address = word,
        4 => s.control.port.code = byte,
        5 => s.control.port.pending = truth,
        6 => s.control.dma.kind = byte,
        7 => s.control.dma.remaining = c,
        8 => s.control.dma.source = c,
        9 => s.control.dma.fill = byte,
        10 => s.control.flags.overflow = truth,
        11 => s.control.flags.collision = truth,
        12 => s.pal = truth,
        13 => s.control.timing.line = word,
        14 => s.control.timing.counter = byte,
        15 => s.control.timing.vertical = truth,
        16 => s.control.timing.horizontal = truth,
        17 => s.control.flags.used_up = truth,
        _ => {}
    }
}
