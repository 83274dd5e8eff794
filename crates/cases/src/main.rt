// Runs the worked cases (definition, Worked cases) and others on the code. The cases are text on standard input; its
// head says how they are written. For each value that a case looks at there is a line on standard output.
#![tactic(auto)]

mod case;
mod item;
mod text;
mod value;

use crate::case::{Marks, named};
use crate::item::item;
use crate::text::{Place, TEXT};
use input::read_full;
use std::io;

// The most items that are done, those of a group each time. Past the end of the text an item does nothing.
const ITEMS: usize = 65536;

fn main(rt: HostRuntime) -> io::Result<()> {
    let mut text = [0u8; TEXT];
    let n = read_full(&mut rt.reader(), &mut text)?;
    let unmarked = Marks { state: 0, vram: 0 };
    let mut case = named(Some(b""), Place::first(&text[..n]), unmarked);
    for _ in 0..ITEMS {
        item(&rt, &mut case)?;
    }
    Ok(())
}
