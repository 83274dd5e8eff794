// The data port (definition, Ports; notes s7 to s10): what a data write stores and a data read gives.
ghost use Rattle.std.specs.Prelude.{◌≡◌};
ghost use Rattle.vdp_state.specs.State.{chip};
ghost use Rattle.vdp_state.specs.Answer.{number_in, answer_of, first, outcome};
ghost use Rattle.vdp_ports.specs.Control.{byte_word};
ghost use Rattle.vdp_ports.specs.Data.{advanced as advanced_port, port_after, fill_begun, data_write_step, data_read_step, data_word, data_tests, data_write, data_read};

use crate::access::{access_of, read_word, written};
use crate::control::byte_word;
use crate::length::{byte_length, fill};
use crate::refusal::{VRAM_SIZE, busy};
use vdp_state::answer::{Done, Refusal, made, made_with_vram};
use vdp_state::good::good;
use vdp_state::kind::DmaKind;
use vdp_state::state::{Control, Dma, Port, State, Step, Store};

// The port once the address has moved by the auto-increment.
pub fn advanced(p: Port, increment: u8) -> Port
    ensures { result ≡ advanced_port p increment }
{
    Port {
        address: p.address.wrapping_add(u16::from(increment)),
        ..p
    }
}

fn port_after(s: State) -> Port
    ensures { result ≡ port_after s }
{
    Port {
        pending: false,
        ..advanced(s.control.port, s.registers[15])
    }
}

fn fill_begun(s: State, w: u16) -> Dma
    ensures { result ≡ fill_begun s w }
{
    if s.control.dma.is(DmaKind::FillWaiting) {
        let [high, _] = w.to_be_bytes();
        fill(byte_length(s), high)
    } else {
        s.control.dma
    }
}

// What a data write decides.
#[tactic(auto, unfolding(crate::specs::Data::data_write_step))]
pub fn data_write_step(s: State, w: u16) -> Step
    ensures { result ≡ data_write_step s w }
{
    let port = s.control.port;
    Step {
        control: Control {
            port: port_after(s),
            dma: fill_begun(s, w),
            ..s.control
        },
        store: written(access_of(port.code), port.address, w),
    }
}

// What a data read decides.
#[tactic(auto, unfolding(crate::specs::Data::data_read_step))]
pub fn data_read_step(s: State) -> Step
    ensures { result ≡ data_read_step s }
{
    Step {
        control: Control {
            port: port_after(s),
            ..s.control
        },
        store: Store::Nothing,
    }
}

// The word that a data read gives.
pub fn data_word(s: State, vram: &[u8]) -> u16
    ensures { result ≡ data_word (chip s vram.now) }
{
    read_word(
        access_of(s.control.port.code),
        s,
        vram,
        s.control.port.address,
    )
}

// Whether a data access is refused.
pub fn data_check(s: State, vram: &[u8]) -> Result<(), Refusal>
    ensures { number_in result ≡ first (data_tests (chip s vram.now)) }
{
    if !good(s) {
        return Err(Refusal::BadState);
    }
    if vram.len() != VRAM_SIZE {
        return Err(Refusal::BadBuffer);
    }
    if busy(s) {
        return Err(Refusal::Busy);
    }
    Ok(())
}

// Writes a word to the data port.
pub fn data_write(s: State, vram: &mut [u8], w: u16) -> Result<Done, Refusal>
    ensures { outcome (answer_of s result) vram.new ≡ data_write (chip s vram.old) w }
{
    data_check(s, vram)?;
    Ok(made_with_vram(s, vram, data_write_step(s, w), 0))
}

// Writes a byte to the data port.
pub fn data_write_byte(s: State, vram: &mut [u8], b: u8) -> Result<Done, Refusal>
    ensures { outcome (answer_of s result) vram.new ≡ data_write (chip s vram.old) (byte_word b) }
{
    data_write(s, vram, byte_word(b))
}

// Reads a word from the data port.
pub fn data_read(s: State, vram: &[u8]) -> Result<Done, Refusal>
    ensures { answer_of s result ≡ data_read (chip s vram.now) }
{
    data_check(s, vram)?;
    Ok(made(s, data_read_step(s), u32::from(data_word(s, vram))))
}
