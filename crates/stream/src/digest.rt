// Digests: h := 0; for each byte h := (h * 16,777,619 + byte + 1) mod 2^32.
ghost use Rattle.std.specs.Prelude.{◌≡◌};
ghost use Rattle.stream.specs.Digest.{step, digest as digest_of};

use crate::line::Line;
use crate::machine::Machine;
use vdp_state::state::{Control, State};

fn byte(h: u32, b: u8) -> u32
    ensures { result ≡ step h b }
{
    h.wrapping_mul(16_777_619).wrapping_add(u32::from(b) + 1)
}

// The digest that goes on from h over these bytes.
pub fn bytes(h: u32, held: &[u8]) -> u32
    ensures { result ≡ digest_of h held.now }
{
    let mut sum = h;
    for b in held {
        sum = byte(sum, *b);
    }
    sum
}

// Numbers go in upper byte first.
fn words(h: u32, held: &[u16]) -> u32 {
    held.iter().fold(h, |sum, w| bytes(sum, &w.to_be_bytes()))
}

// The digest of the state's bytes, in their order.
pub fn state(s: State) -> u32 {
    let Control {
        port,
        dma,
        flags,
        timing,
    } = s.control;
    let mut h = words(words(bytes(0, &s.registers), &s.cram), &s.vsram);
    h = bytes(h, &port.address.to_be_bytes());
    h = bytes(h, &[port.code, u8::from(port.pending), dma.kind]);
    h = bytes(h, &dma.remaining.to_be_bytes());
    h = bytes(h, &dma.source.to_be_bytes());
    h = byte(h, dma.fill);
    h = bytes(h, &[flags.overflow, flags.collision, s.pal].map(u8::from));
    h = bytes(h, &timing.line.to_be_bytes());
    h = byte(h, timing.counter);
    bytes(
        h,
        &[timing.vertical, timing.horizontal, flags.used_up].map(u8::from),
    )
}

// Op 48.
pub(crate) fn digests(m: &Machine) -> Line {
    Line::Digests {
        state: state(m.state),
        vram: bytes(0, &m.vram.bytes),
        pixels: bytes(0, &m.pixels.bytes),
        row: bytes(0, &m.row.bytes),
        tape: bytes(0, &m.tape.bytes),
        count: m.count,
    }
}
