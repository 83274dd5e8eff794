// The items of a script (definition, Scripts, The form): two bytes of length, a kind and a content.
ghost use Rattle.std.specs.Prelude.{◌≡◌, ◌≤◌, length, drop, IfSome};
ghost use Rattle.vdp_script.specs.Item.{kind_of, content_of, content_bytes, item_bytes, byte_after, item_from, item_of};

use vdp_state::cell::{get_or, word_at};

// A call with its word, budget or line number.
#[derive(Clone, Copy, PartialEq, Eq, Debug)]
pub enum Item {
    ControlWord(u16),
    DataWord(u16),
    DataRead,
    StatusRead,
    Run(u16),
    Line(u16),
    NewFrame,
}

// The bytes of an item that its length does not count: those of the length itself.
pub(crate) const LENGTH_BYTES: usize = 2;

// The bytes of an item up to its kind, and those of a content.
pub(crate) const HEAD_BYTES: usize = 3;

pub(crate) const CONTENT_BYTES: usize = 2;

impl Item {
    // The number of its kind, which is a byte of a script: no enum, since any byte may come there.
    pub(crate) fn kind(self) -> u8
        ensures { result ≡ kind_of self }
    {
        match self {
            Item::ControlWord(_) => 1,
            Item::DataWord(_) => 2,
            Item::DataRead => 3,
            Item::StatusRead => 4,
            Item::Run(_) => 5,
            Item::Line(_) => 6,
            Item::NewFrame => 7,
        }
    }

    // The number that is an item's content, if it has one.
    pub fn content(self) -> Option<u16>
        ensures { content_bytes result ≡ content_of self }
    {
        match self {
            Item::ControlWord(w) | Item::DataWord(w) | Item::Run(w) | Item::Line(w) => Some(w),
            Item::DataRead | Item::StatusRead | Item::NewFrame => None,
        }
    }

    // How many bytes an item has.
    pub(crate) fn size(self) -> usize
        ensures { result ≡ length (item_bytes self) }
    {
        match self.content() {
            Some(_) => HEAD_BYTES + CONTENT_BYTES,
            None => HEAD_BYTES,
        }
    }
}

// The item of a kind with this content; kinds 3, 4 and 7 have none.
pub fn item_from(kind: u8, content: u16) -> Option<Item>
    ensures { result ≡ item_from kind content }
{
    match kind {
        1 => Some(Item::ControlWord(content)),
        2 => Some(Item::DataWord(content)),
        3 => Some(Item::DataRead),
        4 => Some(Item::StatusRead),
        5 => Some(Item::Run(content)),
        6 => Some(Item::Line(content)),
        7 => Some(Item::NewFrame),
        _ => None,
    }
}

// The item that these bytes begin with.
#[tactic(auto, unfolding(crate::specs::Item::item_of))]
pub(crate) fn item_of(bytes: &[u8]) -> Option<Item>
    ensures found { result ≡ item_of bytes.now }
    ensures fits { IfSome result (λ i. length (item_bytes i) ≤ length bytes.now) }
{
    let item = item_from(get_or(bytes, 2, 0), word_at(bytes, 3))?;
    let length = LENGTH_BYTES + usize::from(word_at(bytes, 0));
    let whole = (length == item.size()) & (length <= bytes.len());
    whole.then_some(item)
}

// The item that begins at a byte of a script.
#[tactic(auto, using(crate::proofs::Items::nothing_there_lem))]
pub fn item_at(script: &[u8], at: usize) -> Option<Item>
    ensures found { result ≡ item_of (drop at script.now) }
    ensures fits { IfSome result (λ i. byte_after at i ≤ length script.now) }
{
    item_of(script.get(at..)?)
}
