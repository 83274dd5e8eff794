// The recorded calls and step back over a state that is lent (definition, The tape).
ghost use Rattle.std.specs.Prelude.{◌≡◌, List, ℕ};
ghost use Rattle.vdp_ports.specs.Control.{byte_word};
ghost use Rattle.vdp_tape.specs.Line.{line_tape_outcome, recorded_line};
ghost use Rattle.vdp_tape.specs.Recorded.{ControlWrite, DataWrite, DataRead, StatusRead, NewFrame, LineBegins, Acknowledge, Run, recorded};
ghost use Rattle.vdp_tape.specs.Recorder.{recorder, tape_outcome};
ghost use Rattle.vdp_tape.specs.StepBack.{step_back};
ghost use Rattle.vdp_lent.specs.Answer.{with_tape_state};

use crate::answer::{LentTapeAnswer, lend_recorded};
use vdp_dma::source::Memories;
use vdp_state::state::State;
use vdp_tape::calls::{
    control_write, control_write_byte, data_read, data_write, data_write_byte, new_frame, run,
    status_read,
};
use vdp_tape::line::line as draw;
use vdp_tape::step_back::step_back;
use vdp_tape::timing::{acknowledge, line_begins};

// Writes a word to the control port.
pub fn kuthbareen_recorded_control_write(
    s: &mut State,
    tape: &mut [u8],
    count: usize,
    w: u16,
) -> LentTapeAnswer
    ensures { (m : List ℕ) → tape_outcome (with_tape_state result s.new) m tape.new
        ≡ recorded (ControlWrite w) (recorder s.old m tape.old count) }
{
    lend_recorded(control_write(*s, tape, count, w), count, s)
}

// Writes a byte to the control port.
pub fn kuthbareen_recorded_control_write_byte(
    s: &mut State,
    tape: &mut [u8],
    count: usize,
    b: u8,
) -> LentTapeAnswer
    ensures { (m : List ℕ) → tape_outcome (with_tape_state result s.new) m tape.new
        ≡ recorded (ControlWrite (byte_word b)) (recorder s.old m tape.old count) }
{
    lend_recorded(control_write_byte(*s, tape, count, b), count, s)
}

// Writes a word to the data port.
pub fn kuthbareen_recorded_data_write(
    s: &mut State,
    vram: &mut [u8],
    tape: &mut [u8],
    count: usize,
    w: u16,
) -> LentTapeAnswer
    ensures { tape_outcome (with_tape_state result s.new) vram.new tape.new
        ≡ recorded (DataWrite w) (recorder s.old vram.old tape.old count) }
{
    lend_recorded(data_write(*s, vram, tape, count, w), count, s)
}

// Writes a byte to the data port.
pub fn kuthbareen_recorded_data_write_byte(
    s: &mut State,
    vram: &mut [u8],
    tape: &mut [u8],
    count: usize,
    b: u8,
) -> LentTapeAnswer
    ensures { tape_outcome (with_tape_state result s.new) vram.new tape.new
        ≡ recorded (DataWrite (byte_word b)) (recorder s.old vram.old tape.old count) }
{
    lend_recorded(data_write_byte(*s, vram, tape, count, b), count, s)
}

// Reads a word from the data port.
pub fn kuthbareen_recorded_data_read(
    s: &mut State,
    vram: &[u8],
    tape: &mut [u8],
    count: usize,
) -> LentTapeAnswer
    ensures { tape_outcome (with_tape_state result s.new) vram.now tape.new
        ≡ recorded DataRead (recorder s.old vram.now tape.old count) }
{
    lend_recorded(data_read(*s, vram, tape, count), count, s)
}

// Reads the status word.
pub fn kuthbareen_recorded_status_read(
    s: &mut State,
    tape: &mut [u8],
    count: usize,
) -> LentTapeAnswer
    ensures { (m : List ℕ) → tape_outcome (with_tape_state result s.new) m tape.new
        ≡ recorded StatusRead (recorder s.old m tape.old count) }
{
    lend_recorded(status_read(*s, tape, count), count, s)
}

// Begins a new frame.
pub fn kuthbareen_recorded_new_frame(s: &mut State, tape: &mut [u8], count: usize) -> LentTapeAnswer
    ensures { (m : List ℕ) → tape_outcome (with_tape_state result s.new) m tape.new
        ≡ recorded NewFrame (recorder s.old m tape.old count) }
{
    lend_recorded(new_frame(*s, tape, count), count, s)
}

// The next line begins.
pub fn kuthbareen_recorded_line_begins(
    s: &mut State,
    tape: &mut [u8],
    count: usize,
) -> LentTapeAnswer
    ensures { (m : List ℕ) → tape_outcome (with_tape_state result s.new) m tape.new
        ≡ recorded LineBegins (recorder s.old m tape.old count) }
{
    lend_recorded(line_begins(*s, tape, count), count, s)
}

// Acknowledges the level that is offered.
pub fn kuthbareen_recorded_acknowledge(
    s: &mut State,
    tape: &mut [u8],
    count: usize,
    level: u8,
) -> LentTapeAnswer
    ensures { (m : List ℕ) → tape_outcome (with_tape_state result s.new) m tape.new
        ≡ recorded (Acknowledge level) (recorder s.old m tape.old count) }
{
    lend_recorded(acknowledge(*s, tape, count, level), count, s)
}

// Makes DMA units, at most as many as the budget, with a record for each.
pub fn kuthbareen_recorded_run(
    s: &mut State,
    vram: &mut [u8],
    cartridge: &[u8],
    ram: &[u8],
    tape: &mut [u8],
    count: usize,
    budget: u32,
) -> LentTapeAnswer
    ensures { tape_outcome (with_tape_state result s.new) vram.new tape.new
        ≡ recorded (Run cartridge.now ram.now budget)
        (recorder s.old vram.old tape.old count) }
{
    lend_recorded(
        run(*s, vram, Memories { cartridge, ram }, tape, count, budget),
        count,
        s,
    )
}

// Draws a line: its pixel bytes, and the visits as the result.
pub fn kuthbareen_recorded_line(
    s: &mut State,
    vram: &[u8],
    tape: &mut [u8],
    count: usize,
    line: u32,
    pixels: &mut [u8],
) -> LentTapeAnswer
    ensures { line_tape_outcome
        (tape_outcome (with_tape_state result s.new) vram.now tape.new) pixels.new
        ≡ recorded_line line pixels.old
        (recorder s.old vram.now tape.old count) }
{
    lend_recorded(draw(*s, vram, tape, count, line, pixels), count, s)
}

// Takes back the last k steps.
pub fn kuthbareen_step_back(
    s: &mut State,
    vram: &mut [u8],
    tape: &[u8],
    count: usize,
    k: usize,
) -> LentTapeAnswer
    ensures { tape_outcome (with_tape_state result s.new) vram.new tape.now
        ≡ step_back (recorder s.old vram.old tape.now count) k }
{
    lend_recorded(step_back(*s, vram, tape, count, k), count, s)
}
