// A script judged and its calls made, with the lines that are printed (definition, Scripts, The program).
use crate::text::{Line, text_of};
use std::io;
use vdp_dma::source::Memories;
use vdp_script::admitted::admitted;
use vdp_script::call::call_item;
use vdp_script::form::items_of;
use vdp_state::answer::DONE;
use vdp_state::fresh::fresh;

// Prints the line of an item. No contract bounds a place or a result, so the remainders stay; they change nothing, as a
// script has 5,461 items at most and a result 16 bits.
fn print_line(rt: &impl Print, place: usize, number: u8, res: u32) -> io::Result<()> {
    let line = Line {
        place: (place % 65536) as u16,
        number,
        result: (res % 65536) as u16,
    };
    // One write a line. `rt.print` would do it over a buffer of a kilobyte, which each call clears.
    let text = text_of(line)?;
    rt.write_all(text.as_str().as_bytes())
}

// Makes the calls of a script that was admitted, from a fresh state and without a cartridge, up to the first that is
// refused.
fn play_items(
    rt: &impl Print,
    script: &[u8],
    vram: &mut [u8],
    ram: &[u8],
    pixels: &mut [u8],
) -> io::Result<()> {
    let memories = Memories {
        cartridge: &[],
        ram,
    };
    let mut state = fresh(false);
    for (place, item) in items_of(script).enumerate() {
        match call_item(state, vram, memories, pixels, item) {
            Ok(done) => {
                print_line(rt, place, DONE, done.result)?;
                state = done.state;
            }
            Err(refusal) => return print_line(rt, place, refusal.number(), 0),
        }
    }
    Ok(())
}

// Runs a script that was admitted, with VRAM, work RAM and a pixel buffer that are all 0. They stand in a function of
// their own, so that they are not cleared for a script that is refused as a whole.
fn play_admitted(rt: &impl Print, script: &[u8]) -> io::Result<()> {
    let mut vram = [0u8; 65536];
    let ram = [0u8; 65536];
    let mut pixels = [0u8; 320];
    play_items(rt, script, &mut vram, &ram, &mut pixels)
}

// Runs a script. It is judged as a whole first, and one that is refused there prints a line of its own.
pub(crate) fn play(rt: &impl Print, script: &[u8]) -> io::Result<()> {
    if let Err(fault) = admitted(script) {
        return print_line(rt, fault.place, fault.refusal.number(), 0);
    }
    play_admitted(rt, script)
}
