// A buffer of the stream: the bytes that are held, and how many of them a call is lent.
ghost use Rattle.std.specs.Prelude.{◌≡◌, ◌≤◌, min, take};

#[derive(Clone, Copy)]
pub struct Held<const N: usize> {
    pub bytes: [u8; N],
    pub length: usize,
    pub ghost within: { length ≤ N },
}

impl<const N: usize> Held<N> {
    // Bytes that are 0, lent at this length.
    pub(crate) fn zero(length: usize) -> Self
        ensures { result.length ≡ min length N }
    {
        Held {
            bytes: [0; N],
            length: length.min(N),
        }
    }

    // What a call is lent.
    pub fn lent(&self) -> &[u8]
        ensures { result.now ≡ take self.now.length self.now.bytes }
    {
        &self.bytes[..self.length]
    }

    // The same for a call that may write there.
    pub(crate) fn lent_mut(&mut self) -> &mut [u8]
        ensures { result.now ≡ take self.old.length self.old.bytes }
    {
        let length = self.length;
        let bytes = &mut self.bytes;
        let all = &mut bytes[..];
        &mut all[..length]
    }

    // Lends so many bytes from now on, or those held if there are fewer.
    pub fn set_length(&mut self, length: usize)
        ensures value { self.new.length ≡ min length N }
        ensures bytes { self.new.bytes ≡ self.old.bytes }
    {
        self.length = length.min(N);
    }
}
