// An item written into a lent buffer (definition, Scripts, Writing).
ghost use Rattle.std.specs.Prelude.{◌≡◌, ◌+◌, ◌≤◌, length};
ghost use Rattle.std.proofs.lemmas.List.Edits.{sets};
ghost use Rattle.vdp_script.specs.Item.{item_bytes};
ghost use Rattle.vdp_script.specs.Write.{written_of, write_outcome, write_item, write_kind};

use crate::item::{CONTENT_BYTES, HEAD_BYTES, Item, LENGTH_BYTES, item_from};
use vdp_state::answer::Refusal;

// Stores the bytes of an item that has room, in two pieces of fixed sizes: in one of a size known only at run time a
// call took 13.2 ns and not 9.5.
#[tactic(auto, using(crate::proofs::Writes::part_stored))]
fn put_item(script: &mut [u8], at: usize, item: Item)
    requires { at + length (item_bytes item) ≤ length script.old }
    ensures { script.new ≡ sets script.old at (item_bytes item) }
{
    let size = item.size();
    let content_at = at + HEAD_BYTES;
    script[at..content_at].copy_from_slice(&[0, (size - LENGTH_BYTES) as u8, item.kind()]);
    if let Some(word) = item.content() {
        script[content_at..content_at + CONTENT_BYTES].copy_from_slice(&word.to_be_bytes());
    }
}

// Writes an item at a byte of a script, over what stands there, and gives the byte after it.
pub fn write_item(script: &mut [u8], at: usize, item: Item) -> Result<usize, Refusal>
    ensures { write_outcome (written_of result) script.new ≡ write_item script.old at item }
{
    let end = at.checked_add(item.size()).ok_or(Refusal::BadBuffer)?;
    if script.len() < end {
        return Err(Refusal::BadBuffer);
    }
    put_item(script, at, item);
    Ok(end)
}

// Writes the item of a kind with this content; a kind that is not in the table has no item.
pub fn write_kind(script: &mut [u8], at: usize, kind: u8, content: u16) -> Result<usize, Refusal>
    ensures { write_outcome (written_of result) script.new ≡ write_kind script.old at kind content }
{
    let item = item_from(kind, content).ok_or(Refusal::BadScript)?;
    write_item(script, at, item)
}
