// Fill and copy runs: their one loop, which carries the port, the source and VRAM, and what a unit of each does.
ghost use Rattle.std.specs.Prelude.{◌≡◌, ◌+◌, ◌%◌, cond, ◌<◌, ◌≤◌, get_or};
ghost use Rattle.vdp_state.specs.Cell.{stored_in, steps};
ghost use Rattle.vdp_state.specs.State.{Chip, chip};
ghost use Rattle.vdp_state.specs.declared.state.Step.{Step};
ghost use Rattle.vdp_dma.specs.Bytes.{MakesUnits};
ghost use Rattle.vdp_dma.specs.Unit.{byte_stored, inverted as inverted_place};

use crate::unit::{inverted, next_byte, units_control};
use vdp_ports::data::advanced;
use vdp_ports::length::Bytes;
use vdp_ports::refusal::VRAM_SIZE;
use vdp_state::cell::get_or;
use vdp_state::state::{State, Store};

// Makes n units. A call of `unit` stores the byte of one, given its address and source, and gives the source after it.
pub(crate) fn for_each_unit<F: Fn(&mut [u8; VRAM_SIZE], u16, u32) -> u32>(
    s: State,
    vram: &mut [u8; VRAM_SIZE],
    n: Bytes,
    unit: F,
) -> State
    requires callable { F.IsAlwaysCallable unit }
    requires left { (0 < s.control.dma.remaining) × (n.0 ≤ s.control.dma.remaining) }
    ensures { (step : Chip → Step) → MakesUnits (F.post unit) s step → chip result vram.new ≡ steps step n.0 (chip s vram.old) }
{
    let increment = s.registers[15];
    let mut port = s.control.port;
    let mut source = s.control.dma.source;
    for _ in 0..n.0 {
        source = unit(vram, port.address, source);
        port = advanced(port, increment);
    }
    State {
        control: units_control(s.control, port, n.0, source),
        ..s
    }
}

// The byte of a fill unit.
#[tactic(auto, using(crate::proofs::Units::byte_stored_lem))]
pub(crate) fn fill_byte(vram: &mut [u8; VRAM_SIZE], address: u16, b: u8, writes: bool)
    ensures { vram.new
        ≡ stored_in vram.old (cond writes (byte_stored vram.old (inverted_place address) b) Store.Nothing) }
{
    if writes {
        vram[usize::from(inverted(address))] = b;
    }
}

// The byte of a copy unit, and the source after it.
#[tactic(auto, using(crate::proofs::Units::byte_stored_lem))]
pub(crate) fn copy_unit(vram: &mut [u8; VRAM_SIZE], address: u16, source: u32) -> u32
    ensures next { result ≡ (source + 1) % 65536 }
    ensures stored { vram.new
        ≡ stored_in vram.old (byte_stored vram.old address (get_or vram.old source 0)) }
{
    vram[usize::from(address)] = get_or(vram, source as usize, 0);
    next_byte(source)
}
