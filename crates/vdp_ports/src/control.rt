// The control port (definition, Ports and DMA; notes s7 and s11): what a control word does.
ghost use Rattle.std.specs.Prelude.{◌≡◌, ◌+◌, ◌*◌};
ghost use Rattle.vdp_state.specs.Answer.{number_in, answer_of, first};
ghost use Rattle.vdp_ports.specs.Control.{byte_word, fill_dropped, register_write, first_half, second_half, dma_started, dma_after, control_step, control_tests, control_write};

use crate::length::{byte_length, copy, fill_waiting, idle, transfer, word_length};
use crate::refusal::busy;
use crate::taken::{Taken, has_register, register_of, taken_as};
use vdp_state::answer::{Done, Refusal, made};
use vdp_state::cell::joined;
use vdp_state::good::good;
use vdp_state::kind::DmaKind;
use vdp_state::state::{Control, Dma, Port, State, Step, Store};

fn fill_dropped(d: Dma) -> Dma
    ensures { result ≡ fill_dropped d }
{
    if d.is(DmaKind::FillWaiting) {
        idle()
    } else {
        d
    }
}

fn register_write(c: Control, w: u16) -> Step
    ensures { result ≡ register_write c w }
{
    let i = register_of(w);
    if !has_register(i) {
        return Step {
            control: c,
            store: Store::Nothing,
        };
    }
    let [_, b] = w.to_be_bytes();
    Step {
        control: Control {
            port: Port { code: 0, ..c.port },
            dma: fill_dropped(c.dma),
            ..c
        },
        store: Store::Register(i, b),
    }
}

fn first_half(c: Control, w: u16) -> Step
    ensures { result ≡ first_half c w }
{
    Step {
        control: Control {
            port: Port {
                address: c.port.address / 16384 * 16384 + w % 16384,
                code: c.port.code / 4 * 4 + (w / 16384) as u8,
                pending: true,
            },
            dma: fill_dropped(c.dma),
            ..c
        },
        store: Store::Nothing,
    }
}

// The byte address of a transfer's first word.
fn transfer_source(high: u8, middle: u8, low: u8) -> u32
    ensures { result ≡ 2 * (high * 65536 + middle * 256 + low) }
{
    2 * u32::from_be_bytes([0, high, middle, low])
}

// The DMA that registers 19 to 23 describe, as it begins.
fn dma_started(s: State) -> Dma
    ensures { result ≡ dma_started s }
{
    let mode = s.registers[23];
    let middle = s.registers[22];
    let low = s.registers[21];
    if mode < 128 {
        return transfer(word_length(s), transfer_source(mode, middle, low));
    }
    if mode < 192 {
        return fill_waiting();
    }
    copy(byte_length(s), u32::from(joined(middle, low)))
}

fn dma_after(s: State, w: u16) -> Dma
    ensures { result ≡ dma_after s w }
{
    let starts = (w / 128 % 2 == 1) & (s.registers[1] / 16 % 2 == 1);
    if starts {
        dma_started(s)
    } else {
        s.control.dma
    }
}

fn second_half(s: State, w: u16) -> Step
    ensures { result ≡ second_half s w }
{
    let port = s.control.port;
    Step {
        control: Control {
            port: Port {
                address: w % 4 * 16384 + port.address % 16384,
                code: ((w / 16 % 16) as u8) * 4 + port.code % 4,
                pending: false,
            },
            dma: dma_after(s, w),
            ..s.control
        },
        store: Store::Nothing,
    }
}

// What a control word decides.
#[tactic(auto, unfolding(crate::specs::Control::control_step))]
pub fn control_step(s: State, w: u16) -> Step
    ensures { result ≡ control_step s w }
{
    match taken_as(s.control.port.pending, w) {
        Taken::RegisterWrite => register_write(s.control, w),
        Taken::FirstHalf => first_half(s.control, w),
        Taken::SecondHalf => second_half(s, w),
    }
}

// Whether a control write is refused.
pub fn control_check(s: State) -> Result<(), Refusal>
    ensures { number_in result ≡ first (control_tests s) }
{
    if !good(s) {
        return Err(Refusal::BadState);
    }
    if busy(s) {
        return Err(Refusal::Busy);
    }
    Ok(())
}

// Writes a word to the control port.
pub fn control_write(s: State, w: u16) -> Result<Done, Refusal>
    ensures { answer_of s result ≡ control_write s w }
{
    control_check(s)?;
    Ok(made(s, control_step(s, w), 0))
}

// The word that a byte counts as, which is written to a port: the byte stands in both halves.
pub fn byte_word(b: u8) -> u16
    ensures { result ≡ byte_word b }
{
    joined(b, b)
}

// Writes a byte to the control port.
pub fn control_write_byte(s: State, b: u8) -> Result<Done, Refusal>
    ensures { answer_of s result ≡ control_write s (byte_word b) }
{
    control_write(s, byte_word(b))
}
