// The text of the cases: numbers in hexadecimal digits, and the rest of a line.

// The most text that is read.
pub(crate) const TEXT: usize = 65536;

// A place in the text.
#[derive(Clone, Copy)]
pub(crate) struct Place<'a> {
    text: &'a [u8],
    at: usize,
}

// By hand: the library's `to_digit` also takes A to F, so that the program would do something else on such a text.
fn digit(b: u8) -> Option<u8> {
    match b {
        b'0'..=b'9' => Some(b - b'0'),
        b'a'..=b'f' => Some(b - b'a' + 10),
        _ => None,
    }
}

impl<'a> Place<'a> {
    pub(crate) fn first(text: &'a [u8]) -> Self {
        Place { text, at: 0 }
    }

    // What is left of the text.
    fn rest(self) -> &'a [u8] {
        self.text.get(self.at..).unwrap_or_default()
    }

    // The byte at the place, 0 past the end of the text.
    pub(crate) fn byte(self) -> u8 {
        self.text.get(self.at).copied().unwrap_or(0)
    }

    // The place so many bytes on.
    pub(crate) fn onward(self, n: usize) -> Self {
        Place {
            at: self.at.saturating_add(n).min(TEXT),
            ..self
        }
    }

    // Takes the number that begins at the place: 0 if there is no digit. By hand too: it wraps where the library's
    // `from_str_radix` refuses.
    pub(crate) fn number(&mut self) -> u32 {
        let mut value = 0u32;
        for d in self.rest().iter().map_while(|b| digit(*b)) {
            value = value.wrapping_mul(16).wrapping_add(u32::from(d));
            *self = self.onward(1);
        }
        value
    }

    // Takes the number after a dot; without a dot the number before it serves again.
    pub(crate) fn after_dot(&mut self, before: u32) -> u32 {
        if self.byte() != b'.' {
            return before;
        }
        *self = self.onward(1);
        self.number()
    }

    // Where the line ends that goes on at the place.
    pub(crate) fn line_end(self) -> Self {
        let rest = self.rest();
        let end = rest.iter().position(|b| *b == b'\n');
        self.onward(end.unwrap_or(rest.len()))
    }

    // The text up to a place, if that does not come before.
    pub(crate) fn until(self, end: Place<'a>) -> Option<&'a [u8]> {
        self.text.get(self.at..end.at)
    }
}
