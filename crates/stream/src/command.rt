// A command of the stream: 8 bytes, op (1), a (1), b (2) and c (4), big-endian.
ghost use Rattle.std.specs.Prelude.{◌≡◌};
ghost use Rattle.stream.specs.Command.{command_of};

use vdp_state::cell::{get_or, word_at};

pub const COMMAND_BYTES: usize = 8;

#[derive(Clone, Copy, PartialEq, Eq, Debug)]
pub struct Command {
    pub op: u8,
    pub a: u8,
    pub b: u16,
    pub c: u32,
}

// The command that these bytes are.
pub fn command_of(bytes: &[u8]) -> Command
    ensures { result ≡ command_of bytes.now }
{
    let c = [4, 5, 6, 7].map(|i| get_or(bytes, i, 0));
    Command {
        op: get_or(bytes, 0, 0),
        a: get_or(bytes, 1, 0),
        b: word_at(bytes, 2),
        c: u32::from_be_bytes(c),
    }
}
