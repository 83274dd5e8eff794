// The values that a case can look at, by their numbers; the first thirteen are the fields of the stream's op 32.
use crate::case::Case;
use stream::digest::{bytes, state};
use vdp_state::cell::{get_or, word_at};
use vdp_state::good::good;

// The value of this number, one of several by its index. The numbers stand in this one match: an enum of the values
// would list them once more.
pub(crate) fn value(case: &Case<'_>, which: u32, index: u32) -> u64 {
    let i = index as usize;
    let m = &case.machine;
    let s = m.state;
    let c = s.control;
    match which {
        0 => u64::from(get_or(&s.registers, i, 0)),
        1 => u64::from(get_or(&s.cram, i, 0)),
        2 => u64::from(get_or(&s.vsram, i, 0)),
        3 => u64::from(c.port.address),
        4 => u64::from(c.port.code),
        5 => u64::from(c.port.pending),
        6 => u64::from(c.dma.kind),
        7 => u64::from(c.dma.remaining),
        8 => u64::from(c.dma.source),
        9 => u64::from(c.dma.fill),
        10 => u64::from(c.flags.overflow),
        11 => u64::from(c.flags.collision),
        12 => u64::from(s.pal),
        13 => u64::from(case.last.number),
        14 => case.last.result,
        15 => m.count as u64,
        16 => u64::from(word_at(&m.vram.bytes, index)),
        17 => u64::from(get_or(&m.pixels.bytes, i, 0)),
        18 => u64::from(good(s)),
        20 => u64::from(bytes(0, &m.vram.bytes) == case.marks.vram),
        21 => u64::from(c.timing.line),
        22 => u64::from(c.timing.counter),
        23 => u64::from(c.timing.vertical),
        24 => u64::from(c.timing.horizontal),
        25 => u64::from(c.flags.used_up),
        _ => u64::from(state(s) == case.marks.state),
    }
}
