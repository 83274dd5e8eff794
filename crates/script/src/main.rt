// Runs a script (definition, Scripts, The program): its bytes on standard input, a line for each call on standard
// output.
#![tactic(auto)]

mod play;
mod text;

use crate::play::play;
use input::read_full;
use std::io;
use vdp_script::admitted::MOST_BYTES;

// One byte more than a script may have, so that a longer input is seen.
const READ_BYTES: usize = MOST_BYTES + 1;

fn main(rt: HostRuntime) -> io::Result<()> {
    let mut script = [0u8; READ_BYTES];
    let n = read_full(&mut rt.reader(), &mut script)?;
    play(&rt, &script[..n])
}
