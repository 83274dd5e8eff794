// The calls that are never recorded.
use crate::calls::{counted, plain};
use crate::machine::Machine;
use crate::op::OtherCall;
use crate::outcome::Outcome;
use vdp_host::colour::kuthbareen_colour_parts;
use vdp_host::row::pattern_row;
use vdp_reader::end::end_notice;
use vdp_script::form::Fault;
use vdp_script::item::Item;
use vdp_script::run::run_script;
use vdp_script::write::write_item;
use vdp_state::answer::Refusal;
use vdp_tape::step_back::step_back;
use vdp_timing::interrupt::level_offered;
use vdp_timing::v_counter::v_counter;

fn undo(m: &mut Machine, steps: u32) -> Result<u64, Refusal> {
    let steps = steps as usize;
    let answer = step_back(m.state, m.vram.lent_mut(), m.tape.lent(), m.count, steps);
    counted(m, answer)
}

// There is no row 255, nor any above it.
fn row(m: &mut Machine, name: u16, number: u32) -> Result<u64, Refusal> {
    let number = u8::try_from(number).unwrap_or(u8::MAX);
    pattern_row(m.vram.lent(), name, number, m.row.lent_mut())?;
    Ok(0)
}

fn run(m: &mut Machine) -> Result<usize, Fault> {
    let answer = run_script(
        m.state,
        m.vram.lent_mut(),
        m.memories.lent(),
        m.pixels.lent_mut(),
        m.script.lent(),
    );
    m.state = answer.state;
    answer.ended
}

fn write(m: &mut Machine, at: u32, item: Item) -> Result<u64, Refusal> {
    Ok(write_item(m.script.lent_mut(), at as usize, item)? as u64)
}

fn end(m: &mut Machine) -> Result<u64, Refusal> {
    let ended = end_notice(m.reader);
    m.reader = ended.reader;
    ended.answer?;
    Ok(0)
}

pub(crate) fn other_call(m: &mut Machine, call: OtherCall) -> Outcome {
    let answer = match call {
        OtherCall::StepBack(steps) => undo(m, steps),
        OtherCall::PatternRow(name, number) => row(m, name, number),
        OtherCall::ColourParts(w, register) => Ok(u64::from(kuthbareen_colour_parts(w, register))),
        OtherCall::VCounter => plain(m, v_counter(m.state)),
        OtherCall::LevelOffered => plain(m, level_offered(m.state)),
        OtherCall::RunScript => return Outcome::from(run(m)),
        OtherCall::WriteItem(at, item) => write(m, at, item),
        OtherCall::EndNotice => end(m),
    };
    Outcome::from(answer)
}
