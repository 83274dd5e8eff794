// Which memory a data access touches, by the code number (definition, Ports; notes s7).
ghost use Rattle.std.specs.Prelude.{◌≡◌};
ghost use Rattle.vdp_state.specs.State.{chip};
ghost use Rattle.vdp_ports.specs.Access.{access as access_by, swapped as swapped_word, written_to, written as written_by, read_from, read_word};

use vdp_state::cell::{get_or, word_at};
use vdp_state::colour::colour_word;
use vdp_state::state::{State, Store};

#[derive(Clone, Copy)]
pub enum Memory {
    Vram,
    Cram,
    Vsram,
}

// `Nothing` beside the two and not an Option of them: the definitions' laws go by this one enum (`access`, `written`).
#[derive(Clone, Copy)]
pub enum Access {
    Write(Memory),
    Read(Memory),
    Nothing,
}

// The one decision over CD3-CD0.
pub fn access_of(code: u8) -> Access
    ensures { result ≡ access_by code }
{
    match code % 16 {
        0b0001 => Access::Write(Memory::Vram),
        0b0011 => Access::Write(Memory::Cram),
        0b0101 => Access::Write(Memory::Vsram),
        0b0000 => Access::Read(Memory::Vram),
        0b1000 => Access::Read(Memory::Cram),
        0b0100 => Access::Read(Memory::Vsram),
        _ => Access::Nothing,
    }
}

fn swapped(w: u16) -> u16
    ensures { result ≡ swapped_word w }
{
    w.swap_bytes()
}

// The store of a VRAM word at any address.
fn vram_store(address: u16, w: u16) -> Store
    ensures { result ≡ written_to Memory.Vram address w }
{
    let place = address - address % 2;
    if address % 2 == 0 {
        Store::Vram(place, w)
    } else {
        Store::Vram(place, swapped(w))
    }
}

fn scroll_store(address: u16, w: u16) -> Store
    ensures { result ≡ written_to Memory.Vsram address w }
{
    let i = (address / 2 % 64) as u8;
    if i < 40 {
        Store::Vsram(i, w % 1024)
    } else {
        Store::Nothing
    }
}

fn memory_store(memory: Memory, address: u16, w: u16) -> Store
    ensures { result ≡ written_to memory address w }
{
    match memory {
        Memory::Vram => vram_store(address, w),
        Memory::Cram => Store::Cram((address / 2 % 64) as u8, colour_word(w)),
        Memory::Vsram => scroll_store(address, w),
    }
}

// What a data write of a word stores.
pub fn written(access: Access, address: u16, w: u16) -> Store
    ensures { result ≡ written_by access address w }
{
    match access {
        Access::Write(memory) => memory_store(memory, address, w),
        Access::Read(_) | Access::Nothing => Store::Nothing,
    }
}

fn memory_word(memory: Memory, s: State, vram: &[u8], address: u16) -> u16
    ensures { result ≡ read_from memory (chip s vram.now) address }
{
    let i = usize::from(address / 2 % 64);
    match memory {
        Memory::Vram => word_at(vram, u32::from(address - address % 2)),
        Memory::Cram => get_or(&s.cram, i, 0),
        Memory::Vsram => get_or(&s.vsram, i, 0),
    }
}

// What a data read gives.
pub fn read_word(access: Access, s: State, vram: &[u8], address: u16) -> u16
    ensures { result ≡ read_word access (chip s vram.now) address }
{
    match access {
        Access::Read(memory) => memory_word(memory, s, vram, address),
        Access::Write(_) | Access::Nothing => 0,
    }
}
