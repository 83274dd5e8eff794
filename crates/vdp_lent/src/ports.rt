// The port accesses and the new frame over a state that is lent (definition, Ports).
ghost use Rattle.std.specs.Prelude.{◌≡◌};
ghost use Rattle.vdp_state.specs.Answer.{outcome};
ghost use Rattle.vdp_state.specs.State.{chip};
ghost use Rattle.vdp_ports.specs.Control.{byte_word, control_write};
ghost use Rattle.vdp_ports.specs.Data.{data_write, data_read};
ghost use Rattle.vdp_ports.specs.Frame.{new_frame};
ghost use Rattle.vdp_ports.specs.Status.{status_read};
ghost use Rattle.vdp_lent.specs.Answer.{with_state};

use crate::answer::{LentAnswer, lend};
use vdp_ports::control::{control_write, control_write_byte};
use vdp_ports::data::{data_read, data_write, data_write_byte};
use vdp_ports::frame::new_frame;
use vdp_ports::status::status_read;
use vdp_state::state::State;

// Writes a word to the control port.
pub fn kuthbareen_control_write(s: &mut State, w: u16) -> LentAnswer
    ensures { with_state result s.new ≡ control_write s.old w }
{
    lend(control_write(*s, w), s)
}

// Writes a byte to the control port: the byte stands in both halves of the word.
pub fn kuthbareen_control_write_byte(s: &mut State, b: u8) -> LentAnswer
    ensures { with_state result s.new ≡ control_write s.old (byte_word b) }
{
    lend(control_write_byte(*s, b), s)
}

// Writes a word to the data port.
pub fn kuthbareen_data_write(s: &mut State, vram: &mut [u8], w: u16) -> LentAnswer
    ensures { outcome (with_state result s.new) vram.new
        ≡ data_write (chip s.old vram.old) w }
{
    lend(data_write(*s, vram, w), s)
}

// Writes a byte to the data port: the byte stands in both halves of the word.
pub fn kuthbareen_data_write_byte(s: &mut State, vram: &mut [u8], b: u8) -> LentAnswer
    ensures { outcome (with_state result s.new) vram.new
        ≡ data_write (chip s.old vram.old) (byte_word b) }
{
    lend(data_write_byte(*s, vram, b), s)
}

// Reads a word from the data port.
pub fn kuthbareen_data_read(s: &mut State, vram: &[u8]) -> LentAnswer
    ensures { with_state result s.new ≡ data_read (chip s.old vram.now) }
{
    lend(data_read(*s, vram), s)
}

// Reads the status word.
pub fn kuthbareen_status_read(s: &mut State) -> LentAnswer
    ensures { with_state result s.new ≡ status_read s.old }
{
    lend(status_read(*s), s)
}

// Begins a new frame.
pub fn kuthbareen_new_frame(s: &mut State) -> LentAnswer
    ensures { with_state result s.new ≡ new_frame s.old }
{
    lend(new_frame(*s), s)
}
