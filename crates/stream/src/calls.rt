// The calls on the chip, on what is lent of the buffers.
use crate::machine::Machine;
use crate::op::ChipCall;
use vdp_dma::run::run;
use vdp_line::line::line;
use vdp_ports::control::{control_write, control_write_byte};
use vdp_ports::data::{data_read, data_write, data_write_byte};
use vdp_ports::frame::new_frame;
use vdp_ports::status::status_read;
use vdp_state::answer::{Done, Refusal};
use vdp_tape::recorder::Recorded;
use vdp_tape::{calls as recorded, line as recorded_line, timing as recorded_timing};
use vdp_timing::interrupt::acknowledge;
use vdp_timing::line_begins::line_begins;

// `plain_call` and `recorded_call`, `plain` and `counted` are two each: without and with the tape other calls are made,
// and only one with the tape answers a count.
fn plain_call(m: &mut Machine, call: ChipCall) -> Result<Done, Refusal> {
    let s = m.state;
    match call {
        ChipCall::ControlWrite(w) => control_write(s, w),
        ChipCall::ControlWriteByte(b) => control_write_byte(s, b),
        ChipCall::DataWrite(w) => data_write(s, m.vram.lent_mut(), w),
        ChipCall::DataWriteByte(b) => data_write_byte(s, m.vram.lent_mut(), b),
        ChipCall::DataRead => data_read(s, m.vram.lent()),
        ChipCall::StatusRead => status_read(s),
        ChipCall::Run(budget) => run(s, m.vram.lent_mut(), m.memories.lent(), budget),
        ChipCall::Line(n) => line(s, m.vram.lent(), n, m.pixels.lent_mut()),
        ChipCall::NewFrame => new_frame(s),
        ChipCall::LineBegins => line_begins(s),
        ChipCall::Acknowledge(level) => acknowledge(s, level),
    }
}

fn recorded_call(m: &mut Machine, call: ChipCall) -> Result<Recorded, Refusal> {
    let s = m.state;
    let count = m.count;
    let tape = m.tape.lent_mut();
    match call {
        ChipCall::ControlWrite(w) => recorded::control_write(s, tape, count, w),
        ChipCall::ControlWriteByte(b) => recorded::control_write_byte(s, tape, count, b),
        ChipCall::DataWrite(w) => recorded::data_write(s, m.vram.lent_mut(), tape, count, w),
        ChipCall::DataWriteByte(b) => {
            recorded::data_write_byte(s, m.vram.lent_mut(), tape, count, b)
        }
        ChipCall::DataRead => recorded::data_read(s, m.vram.lent(), tape, count),
        ChipCall::StatusRead => recorded::status_read(s, tape, count),
        ChipCall::Run(budget) => {
            recorded::run(s, m.vram.lent_mut(), m.memories.lent(), tape, count, budget)
        }
        ChipCall::Line(n) => {
            recorded_line::line(s, m.vram.lent(), tape, count, n, m.pixels.lent_mut())
        }
        ChipCall::NewFrame => recorded::new_frame(s, tape, count),
        ChipCall::LineBegins => recorded_timing::line_begins(s, tape, count),
        ChipCall::Acknowledge(level) => recorded_timing::acknowledge(s, tape, count, level),
    }
}

// The state that a call gives back is used from then on.
pub(crate) fn plain(m: &mut Machine, answer: Result<Done, Refusal>) -> Result<u64, Refusal> {
    let done = answer?;
    m.state = done.state;
    Ok(u64::from(done.result))
}

// So is the count of a call with the tape.
pub(crate) fn counted(m: &mut Machine, answer: Result<Recorded, Refusal>) -> Result<u64, Refusal> {
    let done = answer?;
    m.state = done.state;
    m.count = done.count;
    Ok(u64::from(done.result))
}

pub(crate) fn chip_call(m: &mut Machine, call: ChipCall) -> Result<u64, Refusal> {
    if m.recorded {
        let answer = recorded_call(m, call);
        counted(m, answer)
    } else {
        let answer = plain_call(m, call);
        plain(m, answer)
    }
}
