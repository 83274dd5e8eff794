// What is held between commands: the state, the buffers, the tape's count, whether calls are recorded, and the reader.
use crate::held::Held;
use vdp_dma::source::Memories;
use vdp_reader::reader::{Reader, started};
use vdp_state::fresh::fresh;
use vdp_state::state::State;

// The bytes held of each buffer: a few more than a call wants, so that a stream can also lend a buffer too long.
pub const VRAM_HELD: usize = 65540;

pub const PIXELS_HELD: usize = 324;

pub const WORK_RAM_HELD: usize = 65540;

pub const CARTRIDGE_HELD: usize = 131_076;

pub const TAPE_HELD: usize = 131_080;

pub const ROW_HELD: usize = 12;

pub const SCRIPT_HELD: usize = 16388;

// The memories that transfers read.
#[derive(Clone, Copy)]
pub struct HeldMemories {
    pub cartridge: Held<CARTRIDGE_HELD>,
    pub ram: Held<WORK_RAM_HELD>,
}

impl HeldMemories {
    pub(crate) fn lent(&self) -> Memories<'_> {
        Memories {
            cartridge: self.cartridge.lent(),
            ram: self.ram.lent(),
        }
    }
}

#[derive(Clone, Copy)]
pub struct Machine {
    pub state: State,
    pub vram: Held<VRAM_HELD>,
    pub pixels: Held<PIXELS_HELD>,
    pub memories: HeldMemories,
    pub tape: Held<TAPE_HELD>,
    pub row: Held<ROW_HELD>,
    pub script: Held<SCRIPT_HELD>,
    pub count: usize,
    pub recorded: bool,
    pub reader: Reader,
}

// The machine as a stream finds it.
pub fn start() -> Machine {
    Machine {
        state: fresh(false),
        vram: Held::zero(65536),
        pixels: Held::zero(320),
        memories: HeldMemories {
            cartridge: Held::zero(131_072),
            ram: Held::zero(65536),
        },
        tape: Held::zero(131_072),
        row: Held::zero(8),
        script: Held::zero(0),
        count: 0,
        recorded: false,
        reader: started(),
    }
}
