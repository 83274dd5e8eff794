// Replays a stream of calls on the model: commands of 8 bytes on standard input, a line for each call and digest on
// standard output. Another implementation that reads the same stream must write the same lines.
#![tactic(auto)]

use input::read_full;
use std::io::{self, Read};
use stream::command::{COMMAND_BYTES, Command, command_of};
use stream::machine::start;
use stream::session::obey;

// The most commands that a stream may have.
const COMMANDS: u32 = 1_048_576;

// Reads a command: none at the input's end, also after a cut last one.
fn read_command<R: Read>(input: &mut R) -> io::Result<Option<Command>> {
    let mut bytes = [0u8; COMMAND_BYTES];
    let n = read_full(input, &mut bytes)?;
    Ok((n == COMMAND_BYTES).then(|| command_of(&bytes)))
}

fn main(rt: HostRuntime) -> io::Result<()> {
    let mut input = rt.reader();
    let mut machine = start();
    for _ in 0..COMMANDS {
        let Some(command) = read_command(&mut input)? else {
            break;
        };
        obey(&mut machine, command, |line| rt.println(line))?;
    }
    Ok(())
}
