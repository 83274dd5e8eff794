// What a byte does in each stage of a reader (definition, Scripts, The reader).
ghost use Rattle.std.specs.Prelude.{◌≡◌};
ghost use Rattle.vdp_reader.specs.Stage.{stage_number};
ghost use Rattle.vdp_reader.specs.Take.{kept_if, length_taken, short_item, kind_taken, long_item, takes};

use crate::reader::{Reader, at_stage, has_content};
use crate::stage::Stage;
use vdp_script::form::VERSION;
use vdp_script::item::{Item, item_from};
use vdp_state::cell::joined;

// What a byte leads to. Three ways with another content each: an Option or a Result of two of them would be no plainer.
#[derive(Clone, Copy)]
pub enum Taking {
    Kept(Reader),
    Whole(Item),
    Faulty,
}

// The only byte that there can be leads to a stage.
fn kept_if(right: bool, stage: Stage) -> Taking
    ensures { result ≡ kept_if right (stage_number stage) }
{
    if right {
        Taking::Kept(at_stage(stage))
    } else {
        Taking::Faulty
    }
}

// The second byte of a length.
fn take_length(byte: u8) -> Taking
    ensures { result ≡ length_taken byte }
{
    match byte {
        1 => Taking::Kept(at_stage(Stage::AtShort)),
        3 => Taking::Kept(at_stage(Stage::AtLong)),
        _ => Taking::Faulty,
    }
}

// The kind of an item without a content, which is whole with it.
fn short_item(kind: u8) -> Taking
    ensures { result ≡ short_item kind }
{
    match item_from(kind, 0) {
        Some(item) if item.content().is_none() => Taking::Whole(item),
        _ => Taking::Faulty,
    }
}

// The kind of an item with a content.
fn take_kind(kind: u8) -> Taking
    ensures { result ≡ kind_taken kind }
{
    if !has_content(kind) {
        return Taking::Faulty;
    }
    Taking::Kept(Reader {
        kind,
        ..at_stage(Stage::AtUpper)
    })
}

// The last byte of a content.
fn long_item(kind: u8, upper: u8, byte: u8) -> Taking
    ensures { result ≡ long_item kind upper byte }
{
    match item_from(kind, joined(upper, byte)) {
        Some(item) => Taking::Whole(item),
        None => Taking::Faulty,
    }
}

// What a byte does to a reader that takes it.
#[tactic(auto, unfolding(crate::specs::Take::takes))]
pub(crate) fn take_byte(reader: Reader, byte: u8) -> Taking
    ensures { result ≡ takes reader byte }
{
    match Stage::of(reader.stage) {
        Some(Stage::Anew) => kept_if(byte == VERSION, Stage::Between),
        Some(Stage::Between) => kept_if(byte == 0, Stage::InLength),
        Some(Stage::InLength) => take_length(byte),
        Some(Stage::AtShort) => short_item(byte),
        Some(Stage::AtLong) => take_kind(byte),
        Some(Stage::AtUpper) => Taking::Kept(Reader {
            kind: reader.kind,
            upper: byte,
            ..at_stage(Stage::AtLower)
        }),
        _ => long_item(reader.kind, reader.upper, byte),
    }
}
