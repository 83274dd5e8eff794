// The two planes, and how many cells a table of cells has across or down (definition, Drawing; notes s12 and s13).
ghost use Rattle.std.specs.Prelude.{◌≡◌, ◌*◌, ◌%◌};
ghost use Rattle.vdp_line.specs.Extent.{cells_in};

// The two planes, in the order of their scroll words.
#[derive(Clone, Copy, PartialEq, Eq, Debug)]
pub(crate) enum PlaneName {
    A = 0,
    B = 1,
}

// The cells that a table has across or down.
#[derive(Clone, Copy, PartialEq, Eq, Debug)]
pub(crate) enum Extent {
    Cells32 = 32,
    Cells64 = 64,
    Cells128 = 128,
}

impl Extent {
    pub(crate) fn cells(self) -> u8
        ensures { result ≡ cells_in self }
    {
        self as u8
    }

    // A pixel that comes round after so many cells. Each extent has a remainder of its own, which is quick by a power
    // of two; a line took 3 to 5 % longer with a match in place of the tests.
    pub(crate) fn pixel(self, n: u32) -> u32
        ensures { result ≡ n % (8 * cells_in self) }
    {
        if self == Extent::Cells32 {
            n % 256
        } else if self == Extent::Cells64 {
            n % 512
        } else {
            n % 1024
        }
    }
}
