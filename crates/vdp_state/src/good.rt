// GOOD (definition, The state): which states a call serves.
ghost use Rattle.std.specs.Prelude.{◌≡◌, ℕ, Bool};
ghost use Rattle.vdp_state.specs.Good.{all, Tests, good_source, good_dma, good_control, good as is_good};

use crate::colour::colour_word;
use crate::kind::DmaKind;
use crate::state::{Control, Dma, State};

// The most units that can remain.
pub const MOST_UNITS: u32 = 65536;

// The last line of a frame.
pub const LAST_LINE: u16 = 261;

// Whether all words pass a test. Each is looked at, whatever the others are: a loop without a way out runs on many
// words at once.
fn all<F: Fn(u16) -> bool>(words: &[u16], test: F) -> bool
    requires { F.IsAlwaysCallable test }
    ensures { (p : ℕ → Bool) → Tests (F.post test) p → result ≡ all p words.now }
{
    let mut passed = true;
    for w in words {
        passed &= test(*w);
    }
    passed
}

fn source_good(kind: u8, source: u32) -> bool
    ensures { result ≡ good_source kind source }
{
    (source == 0)
        | ((kind == DmaKind::Transfer as u8) & (source % 2 == 0) & (source < 0x100_0000))
        | ((kind == DmaKind::Copy as u8) & (source < 0x1_0000))
}

fn dma_good(d: Dma) -> bool
    ensures { result ≡ good_dma d }
{
    (d.kind <= DmaKind::Copy as u8)
        & (d.remaining <= MOST_UNITS)
        & ((d.remaining == 0) == (d.kind <= DmaKind::FillWaiting as u8))
        & source_good(d.kind, d.source)
        & ((d.fill == 0) | d.is(DmaKind::Fill))
}

pub fn control_good(c: Control) -> bool
    ensures { result ≡ good_control c }
{
    (c.port.code <= 63) & dma_good(c.dma) & (c.timing.line <= LAST_LINE)
}

#[tactic(auto, unfolding(crate::specs::Good::good))]
pub fn good(s: State) -> bool
    ensures { result ≡ is_good s }
{
    all(&s.cram, |w| colour_word(w) == w) & all(&s.vsram, |w| w <= 0x3ff) & control_good(s.control)
}
