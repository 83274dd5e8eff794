// Items that name missing registers (definition, Scripts, Missing registers).
ghost use Rattle.std.specs.Prelude.{◌≡◌, false, drop, MatchResult};
ghost use Rattle.vdp_script.specs.Form.{items_from, judged_of};
ghost use Rattle.vdp_script.specs.Missing.{writes_missing, names_missing, pending_after, any_missing, registers_judged};

use crate::form::{Fault, items_of};
use crate::item::Item;
use vdp_ports::taken::{Taken, has_register, pending_left, register_of, taken_as};
use vdp_state::answer::Refusal;

// Whether a control word writes a register that there is not.
fn writes_missing(taken: Taken, w: u16) -> bool
    ensures { result ≡ writes_missing taken w }
{
    match taken {
        Taken::RegisterWrite => !has_register(register_of(w)),
        Taken::FirstHalf | Taken::SecondHalf => false,
    }
}

// Whether an item names a missing register, by the pending flag that its word would find.
pub fn names_missing(pending: bool, item: Item) -> bool
    ensures { result ≡ names_missing pending item }
{
    match item {
        Item::ControlWord(w) => writes_missing(taken_as(pending, w), w),
        _ => false,
    }
}

// The pending flag after an item's call that is done.
fn pending_after(pending: bool, item: Item) -> bool
    ensures { result ≡ pending_after pending item }
{
    match item {
        Item::ControlWord(w) => pending_left(taken_as(pending, w)),
        Item::DataWord(_) | Item::DataRead | Item::StatusRead => false,
        Item::Run(_) | Item::Line(_) | Item::NewFrame => pending,
    }
}

// Judges the registers that the items behind the version name, up to the first faulty item.
pub(crate) fn judge_registers(pending: bool, script: &[u8]) -> Result<(), Fault>
    ensures { let items = (items_from 0 (drop 1 script.now)).items in
        MatchResult result (λ _. any_missing pending items ≡ false)
        (λ fault. judged_of (Err fault) ≡ registers_judged pending items) }
{
    let mut flag = pending;
    for (place, item) in items_of(script).enumerate() {
        if names_missing(flag, item) {
            return Err(Fault {
                refusal: Refusal::MissingRegister,
                place,
            });
        }
        flag = pending_after(flag, item);
    }
    Ok(())
}
