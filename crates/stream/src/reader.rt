// Bytes of the script that are delivered to the reader.
use crate::line::{Line, call_line};
use crate::machine::{Machine, SCRIPT_HELD};
use crate::outcome::Outcome;
use vdp_reader::deliver::deliver;
use vdp_state::answer::number_in;

// What the line of a delivery begins with, and that of each call that it makes.
const DELIVERY: u8 = 20;

const CALL: u8 = 21;

// Delivers so many bytes from a byte of the lent script on, as far as it has them, with a line for each call. A script
// has fewer items than bytes, so that no call is left out.
pub(crate) fn deliver_bytes<E, F: FnMut(Line) -> Result<(), E>>(
    m: &mut Machine,
    from: u16,
    count: u32,
    mut print: F,
) -> Result<(), E>
    requires { F.IsAlwaysCallable print }
{
    let script = m.script.lent();
    let end = script.len().min(usize::from(from) + count as usize);
    let mut rest = &script[end.min(usize::from(from))..end];
    for calls in 0..=SCRIPT_HELD {
        let d = deliver(
            m.state,
            m.vram.lent_mut(),
            m.memories.lent(),
            m.pixels.lent_mut(),
            m.reader,
            rest,
        );
        m.state = d.state;
        m.reader = d.reader;
        rest = rest.get(d.taken..).unwrap_or_default();
        let number = number_in(&d.answer);
        let Some(result) = d.call else {
            let result = calls as u64;
            return print(call_line(DELIVERY, Outcome { number, result }, m.count));
        };
        let result = u64::from(result);
        print(call_line(CALL, Outcome { number, result }, m.count))?;
    }
    Ok(())
}
