// How the control port takes a word (definition, Ports, The control port; notes s7).
ghost use Rattle.std.specs.Prelude.{◌≡◌};
ghost use Rattle.vdp_ports.specs.Taken.{taken_as, pending_left, register_of, has_register};

// What a control word is.
#[derive(Clone, Copy)]
pub enum Taken {
    RegisterWrite,
    FirstHalf,
    SecondHalf,
}

// How a word is taken, by the pending flag that it finds.
pub fn taken_as(pending: bool, w: u16) -> Taken
    ensures { result ≡ taken_as pending w }
{
    if pending {
        return Taken::SecondHalf;
    }
    if w / 16384 == 0b10 {
        Taken::RegisterWrite
    } else {
        Taken::FirstHalf
    }
}

// The pending flag after a word that was taken so.
pub fn pending_left(taken: Taken) -> bool
    ensures { result ≡ pending_left taken }
{
    match taken {
        Taken::RegisterWrite => false,
        Taken::FirstHalf => true,
        Taken::SecondHalf => false,
    }
}

// The register of a register write.
pub fn register_of(w: u16) -> u8
    ensures { result ≡ register_of w }
{
    (w / 256 % 32) as u8
}

// Whether there is a register of this number.
pub fn has_register(i: u8) -> bool
    ensures { result ≡ has_register i }
{
    i < 24
}
