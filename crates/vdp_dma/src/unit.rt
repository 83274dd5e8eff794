// One DMA unit of each kind (definition, DMA; notes s11).
ghost use Rattle.std.specs.Prelude.{◌≡◌, ◌+◌, ◌%◌};
ghost use Rattle.vdp_state.specs.State.{chip};
ghost use Rattle.vdp_dma.specs.Unit.{units_dma, units_control, unit_control, byte_stored, transfer_step, writes_vram, inverted as inverted_place, fill_step, copy_step, unit};

use crate::source::{Memories, next_source};
use vdp_ports::access::{Access, Memory, access_of, written};
use vdp_ports::data::advanced;
use vdp_ports::length::idle;
use vdp_state::cell::{get_or, joined};
use vdp_state::kind::DmaKind;
use vdp_state::state::{Control, Dma, Port, State, Step, Store};

fn units_dma(d: Dma, n: u32, source: u32) -> Dma
    ensures { result ≡ units_dma d n source }
{
    if d.remaining <= n {
        return idle();
    }
    Dma {
        remaining: d.remaining - n,
        source,
        ..d
    }
}

// The control part once n units are made, changed in place: with `Control { port, dma, ..c }` a recorded unit takes 181
// instructions and not 159.
pub fn units_control(mut c: Control, port: Port, n: u32, source: u32) -> Control
    ensures { result ≡ units_control c port n source }
{
    c.port = port;
    c.dma = units_dma(c.dma, n, source);
    c
}

// The control part after a unit.
fn unit_control(c: Control, increment: u8, source: u32) -> Control
    ensures { result ≡ unit_control c increment source }
{
    units_control(c, advanced(c.port, increment), 1, source)
}

// A byte stored in VRAM, as a store of the even word that holds it.
fn byte_stored(vram: &[u8], place: u16, b: u8) -> Store
    ensures { result ≡ byte_stored vram.now place b }
{
    let even = place - place % 2;
    let p = usize::from(place);
    if place % 2 == 0 {
        Store::Vram(even, joined(b, get_or(vram, p + 1, 0)))
    } else {
        Store::Vram(even, joined(get_or(vram, p - 1, 0), b))
    }
}

// Whether a fill with this access stores its byte.
pub fn writes_vram(access: Access) -> bool
    ensures { result ≡ writes_vram access }
{
    matches!(access, Access::Write(Memory::Vram))
}

// An address with bit 0 inverted.
pub fn inverted(place: u16) -> u16
    ensures { result ≡ inverted_place place }
{
    place ^ 1
}

// One word moved.
pub fn transfer_step(s: State, w: u16) -> Step
    ensures { result ≡ transfer_step s w }
{
    let Control { port, dma, .. } = s.control;
    Step {
        control: unit_control(s.control, s.registers[15], next_source(dma.source)),
        store: written(access_of(port.code), port.address, w),
    }
}

// One byte of a fill.
fn fill_step(s: State, vram: &[u8]) -> Step
    ensures { result ≡ fill_step (chip s vram.now) }
{
    let Control { port, dma, .. } = s.control;
    Step {
        control: unit_control(s.control, s.registers[15], dma.source),
        store: if writes_vram(access_of(port.code)) {
            byte_stored(vram, inverted(port.address), dma.fill)
        } else {
            Store::Nothing
        },
    }
}

// The source after a copy unit.
pub fn next_byte(source: u32) -> u32
    ensures { result ≡ (source + 1) % 65536 }
{
    source.wrapping_add(1) % 65536
}

// One byte copied.
fn copy_step(s: State, vram: &[u8]) -> Step
    ensures { result ≡ copy_step (chip s vram.now) }
{
    let Control { port, dma, .. } = s.control;
    let copied = get_or(vram, dma.source as usize, 0);
    Step {
        control: unit_control(s.control, s.registers[15], next_byte(dma.source)),
        store: byte_stored(vram, port.address, copied),
    }
}

// The unit that the chip makes next.
pub fn unit_step(s: State, vram: &[u8], memories: Memories) -> Step
    ensures { result ≡ unit memories.entry.cartridge.now memories.entry.ram.now (chip s vram.now) }
{
    let dma = s.control.dma;
    if dma.is(DmaKind::Transfer) {
        transfer_step(s, memories.word_from(dma.source))
    } else if dma.is(DmaKind::Fill) {
        fill_step(s, vram)
    } else {
        copy_step(s, vram)
    }
}
