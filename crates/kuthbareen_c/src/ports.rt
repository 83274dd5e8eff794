// The port accesses and the new frame over a state that is lent, for C programs.
ghost use Rattle.std.specs.Prelude.{◌≡◌};
ghost use Rattle.vdp_state.specs.Answer.{outcome};
ghost use Rattle.vdp_state.specs.State.{chip};
ghost use Rattle.vdp_ports.specs.Control.{byte_word, control_write};
ghost use Rattle.vdp_ports.specs.Data.{data_write, data_read};
ghost use Rattle.vdp_ports.specs.Frame.{new_frame};
ghost use Rattle.vdp_ports.specs.Status.{status_read};
ghost use Rattle.vdp_lent.specs.Answer.{with_state};

use vdp_lent::answer::LentAnswer;
use vdp_lent::ports;
use vdp_state::state::State;

// Writes a word to the control port.
#[unsafe(no_mangle)]
pub extern "C" fn kuthbareen_control_write(s: &mut State, w: u16) -> LentAnswer
    ensures { with_state result s.new ≡ control_write s.old w }
{
    ports::kuthbareen_control_write(s, w)
}

// Writes a byte to the control port: the byte stands in both halves of the word.
#[unsafe(no_mangle)]
pub extern "C" fn kuthbareen_control_write_byte(s: &mut State, b: u8) -> LentAnswer
    ensures { with_state result s.new ≡ control_write s.old (byte_word b) }
{
    ports::kuthbareen_control_write_byte(s, b)
}

// Writes a word to the data port.
#[unsafe(no_mangle)]
pub extern "C" fn kuthbareen_data_write(s: &mut State, vram: &mut [u8], w: u16) -> LentAnswer
    ensures { outcome (with_state result s.new) vram.new
        ≡ data_write (chip s.old vram.old) w }
{
    ports::kuthbareen_data_write(s, vram, w)
}

// Writes a byte to the data port: the byte stands in both halves of the word.
#[unsafe(no_mangle)]
pub extern "C" fn kuthbareen_data_write_byte(s: &mut State, vram: &mut [u8], b: u8) -> LentAnswer
    ensures { outcome (with_state result s.new) vram.new
        ≡ data_write (chip s.old vram.old) (byte_word b) }
{
    ports::kuthbareen_data_write_byte(s, vram, b)
}

// Reads a word from the data port.
#[unsafe(no_mangle)]
pub extern "C" fn kuthbareen_data_read(s: &mut State, vram: &[u8]) -> LentAnswer
    ensures { with_state result s.new ≡ data_read (chip s.old vram.now) }
{
    ports::kuthbareen_data_read(s, vram)
}

// Reads the status word.
#[unsafe(no_mangle)]
pub extern "C" fn kuthbareen_status_read(s: &mut State) -> LentAnswer
    ensures { with_state result s.new ≡ status_read s.old }
{
    ports::kuthbareen_status_read(s)
}

// Begins a new frame.
#[unsafe(no_mangle)]
pub extern "C" fn kuthbareen_new_frame(s: &mut State) -> LentAnswer
    ensures { with_state result s.new ≡ new_frame s.old }
{
    ports::kuthbareen_new_frame(s)
}
