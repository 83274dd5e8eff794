// What each command of the stream does.
ghost use Rattle.std.specs.Prelude.{◌≡◌, false};
ghost use Rattle.stream.specs.Op.{named};

use crate::calls::chip_call;
use crate::command::Command;
use crate::digest::digests;
use crate::line::{Line, call_line};
use crate::machine::Machine;
use crate::op::{Op, op_of};
use crate::other::other_call;
use crate::outcome::Outcome;
use crate::reader::deliver_bytes;
use crate::setup::set_up;

// Does a command. Each line that it prints is handed on as it comes, and it fails only where that does.
pub fn obey<E, F: FnMut(Line) -> Result<(), E>>(
    m: &mut Machine,
    k: Command,
    mut print: F,
) -> Result<(), E>
    requires { F.IsAlwaysCallable print }
    ensures unnamed { named k.op ≡ false → m.new ≡ m.old }
{
    match op_of(k) {
        None => Ok(()),
        Some(Op::Chip(call)) => {
            let outcome = Outcome::from(chip_call(m, call));
            print(call_line(k.op, outcome, m.count))
        }
        Some(Op::Other(call)) => {
            let outcome = other_call(m, call);
            print(call_line(k.op, outcome, m.count))
        }
        Some(Op::Deliver(from, count)) => deliver_bytes(m, from, count, print),
        Some(Op::SetUp(step)) => {
            set_up(m, step);
            Ok(())
        }
        Some(Op::Digests) => print(digests(m)),
    }
}
