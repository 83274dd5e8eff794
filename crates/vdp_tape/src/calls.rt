// The recorded calls (definition, The tape): the plain form's work, and one record for each step.
ghost use Rattle.std.specs.Prelude.{◌≡◌, List, ℕ, ◌+◌, ◌≤◌};
ghost use Rattle.vdp_state.specs.Answer.{number_in};
ghost use Rattle.vdp_state.specs.State.{chip};
ghost use Rattle.vdp_ports.specs.Control.{byte_word};
ghost use Rattle.vdp_dma.specs.Unit.{unit};
ghost use Rattle.vdp_tape.specs.Number.{capacity};
ghost use Rattle.vdp_tape.specs.OneStep.{OneStep, OffVram};
ghost use Rattle.vdp_tape.specs.Recorded.{ControlWrite, DataWrite, DataRead, StatusRead, NewFrame, Run, recorded};
ghost use Rattle.vdp_tape.specs.Recorder.{Plan, recorder, record_steps, tape_answer_of, tape_outcome, recorded_by};

use crate::number::tape_check;
use crate::recorder::{Recorded, record_one, record_step};
use vdp_dma::run::{run_check, units_made};
use vdp_dma::source::Memories;
use vdp_dma::unit::unit_step;
use vdp_ports::control::{byte_word, control_check, control_step};
use vdp_ports::data::{data_check, data_read_step, data_word, data_write_step};
use vdp_ports::frame::{frame_check, frame_step};
use vdp_ports::status::{status_check, status_step, status_word};
use vdp_state::answer::Refusal;
use vdp_state::state::{State, Step};

// A recorded call of one step that is lent no VRAM: whatever VRAM the caller holds stays.
pub(crate) fn without_vram(
    plain: Result<(), Refusal>,
    s: State,
    tape: &mut [u8],
    count: usize,
    t: Step,
    res: u32,
) -> Result<Recorded, Refusal>
    ensures { (m : List ℕ) (p : Plan) → OneStep p (chip s m) (number_in plain) res t
        → OffVram (p.step (chip s m)).store
        → tape_outcome (tape_answer_of s count result) m tape.new
        ≡ recorded_by p (recorder s m tape.old count) }
{
    record_one(plain, s, &mut [], tape, count, t, res)
}

// Writes a word to the control port. Inlined, since a call of it copies the state once more, which takes a quarter more
// time.
#[inline(always)]
pub fn control_write(s: State, tape: &mut [u8], count: usize, w: u16) -> Result<Recorded, Refusal>
    ensures { (m : List ℕ) → tape_outcome (tape_answer_of s count result) m tape.new
        ≡ recorded (ControlWrite w) (recorder s m tape.old count) }
{
    without_vram(control_check(s), s, tape, count, control_step(s, w), 0)
}

// Writes a byte to the control port.
pub fn control_write_byte(
    s: State,
    tape: &mut [u8],
    count: usize,
    b: u8,
) -> Result<Recorded, Refusal>
    ensures { (m : List ℕ) → tape_outcome (tape_answer_of s count result) m tape.new
        ≡ recorded (ControlWrite (byte_word b)) (recorder s m tape.old count) }
{
    control_write(s, tape, count, byte_word(b))
}

// Reads the status word.
pub fn status_read(s: State, tape: &mut [u8], count: usize) -> Result<Recorded, Refusal>
    ensures { (m : List ℕ) → tape_outcome (tape_answer_of s count result) m tape.new
        ≡ recorded StatusRead (recorder s m tape.old count) }
{
    let word = u32::from(status_word(s));
    without_vram(status_check(s), s, tape, count, status_step(s), word)
}

// Begins a new frame.
pub fn new_frame(s: State, tape: &mut [u8], count: usize) -> Result<Recorded, Refusal>
    ensures { (m : List ℕ) → tape_outcome (tape_answer_of s count result) m tape.new
        ≡ recorded NewFrame (recorder s m tape.old count) }
{
    without_vram(frame_check(s), s, tape, count, frame_step(s), 0)
}

// Writes a word to the data port.
pub fn data_write(
    s: State,
    vram: &mut [u8],
    tape: &mut [u8],
    count: usize,
    w: u16,
) -> Result<Recorded, Refusal>
    ensures { tape_outcome (tape_answer_of s count result) vram.new tape.new
        ≡ recorded (DataWrite w) (recorder s vram.old tape.old count) }
{
    let check = data_check(s, vram);
    record_one(check, s, vram, tape, count, data_write_step(s, w), 0)
}

// Writes a byte to the data port.
pub fn data_write_byte(
    s: State,
    vram: &mut [u8],
    tape: &mut [u8],
    count: usize,
    b: u8,
) -> Result<Recorded, Refusal>
    ensures { tape_outcome (tape_answer_of s count result) vram.new tape.new
        ≡ recorded (DataWrite (byte_word b)) (recorder s vram.old tape.old count) }
{
    data_write(s, vram, tape, count, byte_word(b))
}

// Reads a word from the data port.
pub fn data_read(s: State, vram: &[u8], tape: &mut [u8], count: usize) -> Result<Recorded, Refusal>
    ensures { tape_outcome (tape_answer_of s count result) vram.now tape.new
        ≡ recorded DataRead (recorder s vram.now tape.old count) }
{
    let check = data_check(s, vram);
    let word = u32::from(data_word(s, vram));
    without_vram(check, s, tape, count, data_read_step(s), word)
}

// Makes and records DMA units, each of which is one step.
fn record_units(
    s: State,
    vram: &mut [u8],
    memories: Memories,
    tape: &mut [u8],
    count: usize,
    steps: u32,
) -> State
    requires { count + steps ≤ capacity tape.old }
    ensures { recorder result vram.new tape.new (count + steps)
        ≡ record_steps (unit memories.entry.cartridge.now memories.entry.ram.now) steps (recorder s vram.old tape.old count) }
{
    let mut next = s;
    for i in 0..steps {
        let t = unit_step(next, vram, memories);
        next = record_step(next, vram, tape, count + i as usize, t);
    }
    next
}

// Makes DMA units, at most as many as the budget, with a record for each.
pub fn run(
    s: State,
    vram: &mut [u8],
    memories: Memories,
    tape: &mut [u8],
    count: usize,
    budget: u32,
) -> Result<Recorded, Refusal>
    ensures { tape_outcome (tape_answer_of s count result) vram.new tape.new
        ≡ recorded (Run memories.entry.cartridge.now memories.entry.ram.now budget) (recorder s vram.old tape.old count) }
{
    let check = run_check(s, vram, memories, budget);
    let made = units_made(s, budget);
    tape_check(check, tape, count, made)?;
    Ok(Recorded {
        result: made,
        count: count + made as usize,
        state: record_units(s, vram, memories, tape, count, made),
    })
}
