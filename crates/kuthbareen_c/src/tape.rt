// The recorded calls and step back over a state that is lent, for C programs.
ghost use Rattle.std.specs.Prelude.{◌≡◌, List, ℕ};
ghost use Rattle.vdp_ports.specs.Control.{byte_word};
ghost use Rattle.vdp_tape.specs.Line.{line_tape_outcome, recorded_line};
ghost use Rattle.vdp_tape.specs.Recorded.{ControlWrite, DataWrite, DataRead, StatusRead, NewFrame, LineBegins, Acknowledge, Run, recorded};
ghost use Rattle.vdp_tape.specs.Recorder.{recorder, tape_outcome};
ghost use Rattle.vdp_tape.specs.StepBack.{step_back};
ghost use Rattle.vdp_lent.specs.Answer.{with_tape_state};

use vdp_lent::answer::LentTapeAnswer;
use vdp_lent::tape;
use vdp_state::state::State;

// Writes a word to the control port.
#[unsafe(no_mangle)]
pub extern "C" fn kuthbareen_recorded_control_write(
    s: &mut State,
    tape: &mut [u8],
    count: usize,
    w: u16,
) -> LentTapeAnswer
    ensures { (m : List ℕ) → tape_outcome (with_tape_state result s.new) m tape.new
        ≡ recorded (ControlWrite w) (recorder s.old m tape.old count) }
{
    tape::kuthbareen_recorded_control_write(s, tape, count, w)
}

// Writes a byte to the control port.
#[unsafe(no_mangle)]
pub extern "C" fn kuthbareen_recorded_control_write_byte(
    s: &mut State,
    tape: &mut [u8],
    count: usize,
    b: u8,
) -> LentTapeAnswer
    ensures { (m : List ℕ) → tape_outcome (with_tape_state result s.new) m tape.new
        ≡ recorded (ControlWrite (byte_word b)) (recorder s.old m tape.old count) }
{
    tape::kuthbareen_recorded_control_write_byte(s, tape, count, b)
}

// Writes a word to the data port.
#[unsafe(no_mangle)]
pub extern "C" fn kuthbareen_recorded_data_write(
    s: &mut State,
    vram: &mut [u8],
    tape: &mut [u8],
    count: usize,
    w: u16,
) -> LentTapeAnswer
    ensures { tape_outcome (with_tape_state result s.new) vram.new tape.new
        ≡ recorded (DataWrite w) (recorder s.old vram.old tape.old count) }
{
    tape::kuthbareen_recorded_data_write(s, vram, tape, count, w)
}

// Writes a byte to the data port.
#[unsafe(no_mangle)]
pub extern "C" fn kuthbareen_recorded_data_write_byte(
    s: &mut State,
    vram: &mut [u8],
    tape: &mut [u8],
    count: usize,
    b: u8,
) -> LentTapeAnswer
    ensures { tape_outcome (with_tape_state result s.new) vram.new tape.new
        ≡ recorded (DataWrite (byte_word b)) (recorder s.old vram.old tape.old count) }
{
    tape::kuthbareen_recorded_data_write_byte(s, vram, tape, count, b)
}

// Reads a word from the data port.
#[unsafe(no_mangle)]
pub extern "C" fn kuthbareen_recorded_data_read(
    s: &mut State,
    vram: &[u8],
    tape: &mut [u8],
    count: usize,
) -> LentTapeAnswer
    ensures { tape_outcome (with_tape_state result s.new) vram.now tape.new
        ≡ recorded DataRead (recorder s.old vram.now tape.old count) }
{
    tape::kuthbareen_recorded_data_read(s, vram, tape, count)
}

// Reads the status word.
#[unsafe(no_mangle)]
pub extern "C" fn kuthbareen_recorded_status_read(
    s: &mut State,
    tape: &mut [u8],
    count: usize,
) -> LentTapeAnswer
    ensures { (m : List ℕ) → tape_outcome (with_tape_state result s.new) m tape.new
        ≡ recorded StatusRead (recorder s.old m tape.old count) }
{
    tape::kuthbareen_recorded_status_read(s, tape, count)
}

// Begins a new frame.
#[unsafe(no_mangle)]
pub extern "C" fn kuthbareen_recorded_new_frame(
    s: &mut State,
    tape: &mut [u8],
    count: usize,
) -> LentTapeAnswer
    ensures { (m : List ℕ) → tape_outcome (with_tape_state result s.new) m tape.new
        ≡ recorded NewFrame (recorder s.old m tape.old count) }
{
    tape::kuthbareen_recorded_new_frame(s, tape, count)
}

// The next line begins.
#[unsafe(no_mangle)]
pub extern "C" fn kuthbareen_recorded_line_begins(
    s: &mut State,
    tape: &mut [u8],
    count: usize,
) -> LentTapeAnswer
    ensures { (m : List ℕ) → tape_outcome (with_tape_state result s.new) m tape.new
        ≡ recorded LineBegins (recorder s.old m tape.old count) }
{
    tape::kuthbareen_recorded_line_begins(s, tape, count)
}

// Acknowledges the level that is offered.
#[unsafe(no_mangle)]
pub extern "C" fn kuthbareen_recorded_acknowledge(
    s: &mut State,
    tape: &mut [u8],
    count: usize,
    level: u8,
) -> LentTapeAnswer
    ensures { (m : List ℕ) → tape_outcome (with_tape_state result s.new) m tape.new
        ≡ recorded (Acknowledge level) (recorder s.old m tape.old count) }
{
    tape::kuthbareen_recorded_acknowledge(s, tape, count, level)
}

// Makes DMA units, at most as many as the budget, with a record for each.
#[unsafe(no_mangle)]
pub extern "C" fn kuthbareen_recorded_run(
    s: &mut State,
    vram: &mut [u8],
    cartridge: &[u8],
    ram: &[u8],
    tape: &mut [u8],
    count: usize,
    budget: u32,
) -> LentTapeAnswer
    ensures { tape_outcome (with_tape_state result s.new) vram.new tape.new
        ≡ recorded (Run cartridge.now ram.now budget)
        (recorder s.old vram.old tape.old count) }
{
    tape::kuthbareen_recorded_run(s, vram, cartridge, ram, tape, count, budget)
}

// Draws a line: its pixel bytes, and the visits as the result.
#[unsafe(no_mangle)]
pub extern "C" fn kuthbareen_recorded_line(
    s: &mut State,
    vram: &[u8],
    tape: &mut [u8],
    count: usize,
    line: u32,
    pixels: &mut [u8],
) -> LentTapeAnswer
    ensures { line_tape_outcome
        (tape_outcome (with_tape_state result s.new) vram.now tape.new) pixels.new
        ≡ recorded_line line pixels.old
        (recorder s.old vram.now tape.old count) }
{
    tape::kuthbareen_recorded_line(s, vram, tape, count, line, pixels)
}

// Takes back the last k steps.
#[unsafe(no_mangle)]
pub extern "C" fn kuthbareen_step_back(
    s: &mut State,
    vram: &mut [u8],
    tape: &[u8],
    count: usize,
    k: usize,
) -> LentTapeAnswer
    ensures { tape_outcome (with_tape_state result s.new) vram.new tape.now
        ≡ step_back (recorder s.old vram.old tape.now count) k }
{
    tape::kuthbareen_step_back(s, vram, tape, count, k)
}
