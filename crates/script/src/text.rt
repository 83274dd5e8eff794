// The line of a call (definition, Scripts, The program).
ghost use Rattle.std.specs.Prelude.{◌≡◌, ◌<◌, Some, IfOk};
ghost use Rattle.script.specs.Text.{hex_digit, hex, line_text};

use arrayvec::ArrayString;
use std::fmt::{self, Write};

// Room for a line: two numbers of five digits at most, four digits, two spaces and the line's end.
const LINE_BYTES: usize = 17;

// The place of the item, the number answered and the result. The number stays, since it is what is printed.
#[derive(Clone, Copy)]
pub(crate) struct Line {
    pub place: u16,
    pub number: u8,
    pub result: u16,
}

// The character of a hexadecimal digit.
#[tactic(auto, unfolding(crate::specs::Text::hex_digit))]
fn hex_digit(d: u16) -> char
    requires { d < 16 }
    ensures value { result ≡ hex_digit d }
    ensures ascii { result < 128 }
{
    if d < 10 {
        char::from(b'0' + d as u8)
    } else {
        char::from(b'A' - 10 + d as u8)
    }
}

// A number in four hexadecimal digits. `{:04X}` writes the same, but with it a line is half as much work again.
fn hex_text(n: u16) -> ArrayString<4>
    ensures { result.bytes ≡ hex n }
{
    let mut text = ArrayString::new();
    text.push(hex_digit(n / 4096 % 16));
    text.push(hex_digit(n / 256 % 16));
    text.push(hex_digit(n / 16 % 16));
    text.push(hex_digit(n % 16));
    text
}

impl fmt::Display for Line {
    ghost output = { λ l. Some (line_text l.place l.number l.result) };

    #[tactic(auto, using(crate::proofs::Texts::decimal_written))]
    fn fmt<W: fmt::Write>(&self, f: &mut fmt::Formatter<W>) -> fmt::Result {
        let place = self.place;
        let number = self.number;
        let word = hex_text(self.result);
        writeln!(f, "{place} {number} {word}")
    }
}

// The text of a line, for one write.
pub(crate) fn text_of(line: Line) -> Result<ArrayString<LINE_BYTES>, fmt::Error>
    ensures { IfOk result (λ t. t.bytes ≡ line_text line.place line.number line.result) }
{
    let mut text = ArrayString::new();
    text.write(line)?;
    Ok(text)
}
