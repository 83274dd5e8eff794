// The chip's state (definition, The state) and a step, which is all that a port access, a DMA unit, a line, a new
// frame, a line that begins or an acknowledge does to it: a new control part and at most one stored cell.

// The address and code registers, and whether the second half of a command is awaited.
#[repr(C)]
#[derive(Clone, Copy)]
pub struct Port {
    pub address: u16,
    pub code: u8,
    pub pending: bool,
}

// The number of a DMA kind, units remaining, source and fill byte. The kind stays a number, since a state that C lends
// may have one that there is not, and is then refused.
#[repr(C)]
#[derive(Clone, Copy)]
pub struct Dma {
    pub kind: u8,
    pub remaining: u32,
    pub source: u32,
    pub fill: u8,
}

// The sprite flags of the status word, and whether the sprites of the line drawn last used up its pixels.
#[repr(C)]
#[derive(Clone, Copy)]
pub struct Flags {
    pub overflow: bool,
    pub collision: bool,
    pub used_up: bool,
}

// The line that the display is on, the line counter, status bit 7 (the vertical interrupt has come), and whether a
// level 4 interrupt waits.
#[repr(C)]
#[derive(Clone, Copy)]
pub struct Timing {
    pub line: u16,
    pub counter: u8,
    pub vertical: bool,
    pub horizontal: bool,
}

// The part of the state that a tape record keeps whole.
#[repr(C)]
#[derive(Clone, Copy)]
pub struct Control {
    pub port: Port,
    pub dma: Dma,
    pub flags: Flags,
    pub timing: Timing,
}

#[repr(C)]
#[derive(Clone, Copy)]
pub struct State {
    pub registers: [u8; 24],
    pub cram: [u16; 64],
    pub vsram: [u16; 40],
    pub control: Control,
    pub pal: bool,
}

// A cell and a content for it: a VRAM word at an even place, a colour, a scroll word or a register, or no cell. One
// enum and not an Option of one: the definitions' laws go by it (`stored_in`, `present`, `kept_of`).
#[derive(Clone, Copy)]
pub enum Store {
    Nothing,
    Vram(u16, u16),
    Cram(u8, u16),
    Vsram(u8, u16),
    Register(u8, u8),
}

// The control part that follows and the cell that is stored.
#[derive(Clone, Copy)]
pub struct Step {
    pub control: Control,
    pub store: Store,
}
