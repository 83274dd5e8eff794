// The DMA kinds (definition, The state).
ghost use Rattle.std.specs.Prelude.{◌≡◌, eqb};
ghost use Rattle.vdp_state.specs.Kind.{kind_number};

use crate::state::Dma;

// What DMA does, each with its number.
#[derive(Clone, Copy, PartialEq, Eq, Debug)]
pub enum DmaKind {
    Idle = 0,
    FillWaiting = 1,
    Transfer = 2,
    Fill = 3,
    Copy = 4,
}

// The DMA that does nothing.
pub const IDLE: Dma = Dma {
    kind: DmaKind::Idle as u8,
    remaining: 0,
    source: 0,
    fill: 0,
};

impl Dma {
    pub fn is(self, kind: DmaKind) -> bool
        ensures { result ≡ eqb self.kind (kind_number kind) }
    {
        self.kind == kind as u8
    }
}
