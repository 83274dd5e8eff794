// DMA lengths (definition, DMA; notes s11): words for a transfer, bytes for a fill or copy, and the DMA states that
// begin with them.
ghost use Rattle.std.specs.Prelude.{◌≡◌};
ghost use Rattle.vdp_ports.specs.Length.{units as units_from, units_of, words as words_of, bytes as bytes_of, idle as idle_dma, fill_waiting, transfer as transfer_dma, fill as fill_dma, copy as copy_dma};

use vdp_state::cell::joined;
use vdp_state::good::MOST_UNITS;
use vdp_state::kind::{DmaKind, IDLE};
use vdp_state::state::{Dma, State};

// How many words a transfer moves, and how many bytes a fill or a copy writes: two types, so that one is never taken
// for the other. That `transfer` and `copy` are two functions follows from it.
#[derive(Clone, Copy)]
pub struct Words(pub u32);

#[derive(Clone, Copy)]
pub struct Bytes(pub u32);

// A length of zero stands for the most units.
fn units(n: u32) -> u32
    ensures { result ≡ units_from n }
{
    if n == 0 { MOST_UNITS } else { n }
}

// The length that the registers give, in words or in bytes.
pub fn length(s: State) -> u32
    ensures { result ≡ units_of s }
{
    units(u32::from(joined(s.registers[20], s.registers[19])))
}

pub fn word_length(s: State) -> Words
    ensures { result ≡ words_of (units_of s) }
{
    Words(length(s))
}

pub fn byte_length(s: State) -> Bytes
    ensures { result ≡ bytes_of (units_of s) }
{
    Bytes(length(s))
}

pub fn idle() -> Dma
    ensures { result ≡ idle_dma }
{
    IDLE
}

pub fn fill_waiting() -> Dma
    ensures { result ≡ fill_waiting }
{
    Dma {
        kind: DmaKind::FillWaiting as u8,
        ..IDLE
    }
}

pub fn transfer(n: Words, source: u32) -> Dma
    ensures { result ≡ transfer_dma n source }
{
    Dma {
        kind: DmaKind::Transfer as u8,
        remaining: n.0,
        source,
        ..IDLE
    }
}

pub fn fill(n: Bytes, b: u8) -> Dma
    ensures { result ≡ fill_dma n b }
{
    Dma {
        kind: DmaKind::Fill as u8,
        remaining: n.0,
        fill: b,
        ..IDLE
    }
}

pub fn copy(n: Bytes, source: u32) -> Dma
    ensures { result ≡ copy_dma n source }
{
    Dma {
        kind: DmaKind::Copy as u8,
        remaining: n.0,
        source,
        ..IDLE
    }
}
