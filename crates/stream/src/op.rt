// What a command asks for, by its op (docs/STREAM.md).
ghost use Rattle.std.specs.Prelude.{◌≡◌, false};
ghost use Rattle.stream.specs.Op.{named};

use crate::command::Command;
use vdp_script::item::{Item, item_from};

// A call on the chip: plain, or recorded while the machine says so.
#[derive(Clone, Copy, PartialEq, Eq, Debug)]
pub(crate) enum ChipCall {
    ControlWrite(u16),
    ControlWriteByte(u8),
    DataWrite(u16),
    DataWriteByte(u8),
    DataRead,
    StatusRead,
    Run(u32),
    Line(u32),
    NewFrame,
    LineBegins,
    Acknowledge(u8),
}

// A call that is never recorded.
#[derive(Clone, Copy, PartialEq, Eq, Debug)]
pub(crate) enum OtherCall {
    StepBack(u32),
    PatternRow(u16, u32),
    ColourParts(u16, u8),
    VCounter,
    LevelOffered,
    RunScript,
    WriteItem(u32, Item),
    EndNotice,
}

#[derive(Clone, Copy, PartialEq, Eq, Debug)]
pub(crate) enum Buffer {
    Vram,
    Pixels,
    WorkRam,
    Cartridge,
    Tape,
    Row,
    Script,
}

// What is done to a buffer: a byte is set, all bytes are the generator's next ones or are the same, or it is lent at
// another length.
#[derive(Clone, Copy, PartialEq, Eq, Debug)]
pub(crate) enum Change {
    Byte(u32, u8),
    Generated(u32),
    Same(u8),
    Length(u32),
}

// What is set; nothing is printed.
#[derive(Clone, Copy, PartialEq, Eq, Debug)]
pub(crate) enum SetUp {
    Reader,
    Field(u8, u16, u32),
    Fresh(bool),
    Buffer(Buffer, Change),
    Count(u32),
    Recorded(bool),
}

#[derive(Clone, Copy, PartialEq, Eq, Debug)]
pub(crate) enum Op {
    Chip(ChipCall),
    Other(OtherCall),
    Deliver(u16, u32),
    SetUp(SetUp),
    Digests,
}

// An `Option` is plainer than `TryFrom` here: no one would read its error, and `op_of` answers an `Option` too.
fn buffer_of(number: u16) -> Option<Buffer> {
    match number {
        0 => Some(Buffer::Vram),
        1 => Some(Buffer::Pixels),
        2 => Some(Buffer::WorkRam),
        3 => Some(Buffer::Cartridge),
        4 => Some(Buffer::Tape),
        5 => Some(Buffer::Row),
        6 => Some(Buffer::Script),
        _ => None,
    }
}

// What a command asks for; one that the page does not name asks for nothing. The number of an op is read here alone.
pub(crate) fn op_of(k: Command) -> Option<Op>
    ensures { named k.op ≡ false → result ≡ None }
{
    let op = match k.op {
        1 => Op::Chip(ChipCall::ControlWrite(k.b)),
        2 => Op::Chip(ChipCall::ControlWriteByte(k.a)),
        3 => Op::Chip(ChipCall::DataWrite(k.b)),
        4 => Op::Chip(ChipCall::DataWriteByte(k.a)),
        5 => Op::Chip(ChipCall::DataRead),
        6 => Op::Chip(ChipCall::StatusRead),
        7 => Op::Chip(ChipCall::Run(k.c)),
        8 => Op::Chip(ChipCall::Line(k.c)),
        9 => Op::Chip(ChipCall::NewFrame),
        10 => Op::Other(OtherCall::StepBack(k.c)),
        11 => Op::Other(OtherCall::PatternRow(k.b, k.c)),
        12 => Op::Other(OtherCall::ColourParts(k.b, k.a)),
        13 => Op::Chip(ChipCall::LineBegins),
        14 => Op::Chip(ChipCall::Acknowledge(k.a)),
        15 => Op::Other(OtherCall::VCounter),
        16 => Op::Other(OtherCall::LevelOffered),
        17 => Op::Other(OtherCall::RunScript),
        18 => Op::Other(OtherCall::WriteItem(k.c, item_from(k.a, k.b)?)),
        19 => Op::SetUp(SetUp::Reader),
        20 => Op::Deliver(k.b, k.c),
        22 => Op::Other(OtherCall::EndNotice),
        32 => Op::SetUp(SetUp::Field(k.a, k.b, k.c)),
        33 => Op::SetUp(SetUp::Fresh(k.a % 2 == 1)),
        34 => Op::SetUp(SetUp::Buffer(buffer_of(k.b)?, Change::Byte(k.c, k.a))),
        35 => Op::SetUp(SetUp::Buffer(buffer_of(k.b)?, Change::Generated(k.c))),
        36 => Op::SetUp(SetUp::Buffer(buffer_of(k.b)?, Change::Length(k.c))),
        37 => Op::SetUp(SetUp::Count(k.c)),
        38 => Op::SetUp(SetUp::Recorded(k.a % 2 == 1)),
        39 => Op::SetUp(SetUp::Buffer(buffer_of(k.b)?, Change::Same(k.a))),
        48 => Op::Digests,
        _ => return None,
    };
    Some(op)
}
