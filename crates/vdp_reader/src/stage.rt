// The stages of a reader (definition, Scripts, The reader).
ghost use Rattle.std.specs.Prelude.{◌≡◌};
ghost use Rattle.vdp_reader.specs.Stage.{stage_of};

// What has come of a script, or that the reader is stopped, each with its number.
#[derive(Clone, Copy, PartialEq, Eq, Debug)]
pub(crate) enum Stage {
    Anew = 0,
    Between = 1,
    InLength = 2,
    AtShort = 3,
    AtLong = 4,
    AtUpper = 5,
    AtLower = 6,
    Stopped = 7,
}

impl Stage {
    // The stage that has a number. An Option is plainer than `TryFrom`, whose error nobody would read: a reader with
    // such a number is refused as one outside its ranges.
    pub(crate) fn of(number: u8) -> Option<Stage>
        ensures { result ≡ stage_of number }
    {
        match number {
            0 => Some(Stage::Anew),
            1 => Some(Stage::Between),
            2 => Some(Stage::InLength),
            3 => Some(Stage::AtShort),
            4 => Some(Stage::AtLong),
            5 => Some(Stage::AtUpper),
            6 => Some(Stage::AtLower),
            7 => Some(Stage::Stopped),
            _ => None,
        }
    }
}
