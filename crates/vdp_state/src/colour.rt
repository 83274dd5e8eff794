// The colour word (definition, Ports, The colour word). Notes s9 draw it, bit 15 first, as
//     ----bbb-ggg-rrr-
ghost use Rattle.std.specs.Prelude.{◌≡◌};
ghost use Rattle.vdp_state.specs.Colour.{parts_of, colour_word};

// The three parts of a colour word, each 0 to 7.
#[derive(Clone, Copy)]
pub struct Parts {
    pub blue: u8,
    pub green: u8,
    pub red: u8,
}

// Takes the parts out of a word. The other bits are ignored.
pub fn parts_of(w: u16) -> Parts
    ensures { result ≡ parts_of w }
{
    Parts {
        blue: (w / 512 % 8) as u8, // bits 11-9
        green: (w / 32 % 8) as u8, // bits 7-5
        red: (w / 2 % 8) as u8, // bits 3-1
    }
}

// The bits of 0EEEh, which are all that a colour cell keeps of a word: the parts joined, each where it was.
#[tactic(auto, unfolding(crate::specs::Colour::colour_word))]
pub fn colour_word(w: u16) -> u16
    ensures { result ≡ colour_word w }
{
    let parts = parts_of(w);
    u16::from(parts.blue) * 512 + u16::from(parts.green) * 32 + u16::from(parts.red) * 2
}
