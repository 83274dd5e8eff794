// The run (definition, DMA): as many units as the budget and the units remaining allow.
ghost use Rattle.std.specs.Prelude.{◌≡◌, not, ◌&&◌, ◌||◌, eqb};
ghost use Rattle.vdp_state.specs.Answer.{number_in, answer_of, first, outcome};
ghost use Rattle.vdp_state.specs.State.{chip};
ghost use Rattle.vdp_dma.specs.Run.{units_made, bad_memory, run_tests, ran, run as run_outcome};
ghost use Rattle.vdp_dma.specs.Transfer.{at_hand};

use crate::bytes::{copy_unit, fill_byte, for_each_unit};
use crate::source::{Memories, WORK_RAM};
use crate::transfer::transfer_units;
use crate::unit::writes_vram;
use vdp_ports::access::access_of;
use vdp_ports::length::{Bytes, Words};
use vdp_ports::refusal::VRAM_SIZE;
use vdp_state::answer::{Done, Refusal};
use vdp_state::good::good;
use vdp_state::kind::DmaKind;
use vdp_state::state::{Dma, State};

const RAM_SIZE: usize = 65536;

const MOST_CARTRIDGE: usize = 4194304;

// The units that a run with this budget makes.
pub fn units_made(s: State, budget: u32) -> u32
    ensures { result ≡ units_made s budget }
{
    budget.min(s.control.dma.remaining)
}

// Whether one of the memories has a wrong size.
fn bad_memory(vram: &[u8], memories: Memories) -> bool
    ensures { result
        ≡ (bad_memory vram.now memories.entry.cartridge.now memories.entry.ram.now).holds }
{
    let Memories { cartridge, ram } = memories;
    vram.len() != VRAM_SIZE
        || ram.len() != RAM_SIZE
        || cartridge.len() > MOST_CARTRIDGE
        || cartridge.len() % 2 != 0
}

// Whether a transfer lacks some of its next n words. Even sources and a cartridge below work RAM make one test do for
// all.
fn lacking(d: Dma, cartridge: &[u8], n: Words) -> bool
    ensures { result
        ≡ (eqb d.kind 2 && not (eqb n.0 0 || at_hand cartridge.now d.source n.0)) }
{
    let end = d.source as usize + 2 * n.0 as usize;
    d.is(DmaKind::Transfer) && n.0 != 0 && d.source < WORK_RAM && cartridge.len() < end
}

// Whether a run is refused.
#[tactic(auto, using(crate::proofs::Accepted::lacks))]
pub fn run_check(s: State, vram: &[u8], memories: Memories, budget: u32) -> Result<(), Refusal>
    ensures { number_in result
        ≡ first (run_tests (chip s vram.now) memories.entry.cartridge.now memories.entry.ram.now budget) }
{
    if !good(s) {
        return Err(Refusal::BadState);
    }
    if bad_memory(vram, memories) {
        return Err(Refusal::BadBuffer);
    }
    if lacking(
        s.control.dma,
        memories.cartridge,
        Words(units_made(s, budget)),
    ) {
        return Err(Refusal::SourceNotLent);
    }
    Ok(())
}

// Makes the units of a run that is not refused.
fn accepted(s: State, vram: &mut [u8; VRAM_SIZE], memories: Memories, budget: u32) -> State
    requires { first (run_tests (chip s vram.old) memories.cartridge.now memories.ram.now budget)
        ≡ 0 }
    ensures { chip result vram.new
        ≡ ran memories.entry.cartridge.now memories.entry.ram.now (units_made s budget) (chip s vram.old) }
{
    let n = units_made(s, budget);
    let dma = s.control.dma;
    if dma.is(DmaKind::Transfer) {
        return transfer_units(s, vram, memories, Words(n));
    }
    if dma.is(DmaKind::Fill) {
        let writes = writes_vram(access_of(s.control.port.code));
        return for_each_unit(s, vram, Bytes(n), |vram, address, source| {
            fill_byte(vram, address, dma.fill, writes);
            source
        });
    }
    if dma.is(DmaKind::Copy) {
        return for_each_unit(s, vram, Bytes(n), copy_unit);
    }
    s
}

// Makes DMA units, at most as many as the budget; the result is how many were made.
pub fn run(s: State, vram: &mut [u8], memories: Memories, budget: u32) -> Result<Done, Refusal>
    ensures { outcome (answer_of s result) vram.new
        ≡ run_outcome (chip s vram.old) memories.entry.cartridge.now memories.entry.ram.now budget }
{
    run_check(s, vram, memories, budget)?;
    let vram = vram.as_mut_array().unwrap(); // its length is tested
    Ok(Done {
        result: units_made(s, budget),
        state: accepted(s, vram, memories, budget),
    })
}
