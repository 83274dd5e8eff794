// What a program reads: its whole input, up to what a buffer holds.
#![tactic(auto)]

ghost use Rattle.std.specs.Prelude.{◌≤◌, length, IfOk};

use std::io::{self, Read};

// Reads until the buffer is full or the input ends; how many bytes came. A loop of its own: `read_exact` does not count
// what came before the end, and `read_to_end` takes a heap.
pub fn read_full<R: Read>(input: &mut R, held: &mut [u8]) -> io::Result<usize>
    ensures { IfOk result (λ n. n ≤ length held.old) }
{
    let mut n = 0;
    while n < held.len() {
        let read = input.read(&mut held[n..])?;
        if read == 0 {
            return Ok(n);
        }
        n += read;
    }
    Ok(n)
}
