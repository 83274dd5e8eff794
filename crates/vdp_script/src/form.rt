// The form of a script (definition, Scripts, The form).
ghost use Rattle.std.specs.Prelude.{◌≡◌, ◌≤◌, length, drop};
ghost use Rattle.std.specs.Iterator.{YieldsFirst, item_count};
ghost use Rattle.vdp_script.specs.Form.{items_from, form_of, form_judged, judged_of};

use crate::item::{Item, item_of};
use vdp_state::answer::Refusal;
use vdp_state::cell::get_or;

pub const VERSION: u8 = 1;

// Why a script is refused, and the place of the item that is at fault.
#[derive(Clone, Copy, PartialEq, Eq, Debug)]
pub struct Fault {
    pub refusal: Refusal,
    pub place: usize,
}

// The items that bytes begin with, one after the other, up to the first that is faulty.
#[derive(Drop)]
pub struct Items<'a> {
    pub rest: &'a [u8],
}

impl<'a> Iterator for Items<'a> {
    type Item = Item;

    ghost next_gives = { λ s r t. YieldsFirst (λ x. (items_from 0 x.rest.now).items) s r t
        × ((items_from 0 s.rest.now).faulty ≡ (items_from 0 t.rest.now).faulty) };

    ghost remaining = { item_count (λ s. (items_from 0 s.rest.now).items) };

    #[tactic(auto, using(crate::proofs::Forms::no_items))]
    fn next(&mut self) -> Option<Item> {
        let item = item_of(self.rest)?;
        self.rest = &self.rest[item.size()..];
        Some(item)
    }
}

// The items of a script, which stand behind its version. There are no more of them than bytes.
#[tactic(auto, using(crate::proofs::Forms::items_few))]
pub fn items_of(script: &[u8]) -> Items<'_>
    ensures bytes { result.rest.now ≡ drop 1 script.now }
    ensures few { length (items_from 0 result.rest.now).items ≤ length script.now }
{
    Items {
        rest: script.get(1..).unwrap_or(&[]),
    }
}

// Judges the items behind the version.
#[tactic(auto, using(crate::proofs::Forms::left_over))]
fn judge_items(script: &[u8]) -> Result<usize, Fault>
    ensures { judged_of result ≡ form_judged (items_from 0 (drop 1 script.now)) }
{
    let mut items = items_of(script);
    let mut place = 0;

    // Tried, and the proof did not close: after `items.by_ref().count()` or a `for` over `&mut items` no clause says
    // what `items` is, and so which bytes are left.
    while items.next().is_some() {
        place += 1;
    }
    if !items.rest.is_empty() {
        return Err(Fault {
            refusal: Refusal::BadScript,
            place,
        });
    }
    Ok(place)
}

// Judges the form of a script: its version and all its items.
#[tactic(auto, unfolding(crate::specs::Form::form_of))]
pub(crate) fn judge_form(script: &[u8]) -> Result<usize, Fault>
    ensures { judged_of result ≡ form_judged (form_of script.now) }
{
    if get_or(script, 0, 0) != VERSION {
        return Err(Fault {
            refusal: Refusal::BadScript,
            place: 0,
        });
    }
    judge_items(script)
}
