// The conditions under which a port access is refused (definition, Numbers a call may answer).
ghost use Rattle.std.specs.Prelude.{◌≡◌};
ghost use Rattle.vdp_ports.specs.Refusal.{filling as is_filling, busy as busy_test, busy_at_status};

use vdp_state::kind::DmaKind;
use vdp_state::state::State;

pub const VRAM_SIZE: usize = 65536;

// DMA fills or copies.
pub fn filling(s: State) -> bool
    ensures { result ≡ is_filling s }
{
    s.control.dma.is(DmaKind::Fill) | s.control.dma.is(DmaKind::Copy)
}

pub fn transferring(s: State) -> bool
    ensures { result ≡ (busy_at_status s).holds }
{
    s.control.dma.is(DmaKind::Transfer)
}

pub fn busy(s: State) -> bool
    ensures { result ≡ (busy_test s).holds }
{
    transferring(s) | filling(s)
}
