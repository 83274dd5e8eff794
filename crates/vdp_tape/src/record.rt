// A tape record (definition, The tape): the step that undoes a step, in 32 bytes.
ghost use Rattle.std.specs.Prelude.{◌≡◌, [], ◌∷◌, ◌<◌};
ghost use Rattle.vdp_tape.specs.Record.{kept_of, store_of, flag_byte, flag_at, flags_of, number_at, record_of, step_of, good_record};
ghost use Rattle.vdp_state.specs.Range.{good_store};
ghost use Rattle.vdp_state.specs.Same.{same as same_bytes};

use crate::number::RECORD_SIZE;
use vdp_state::cell::{get_or, word_at};
use vdp_state::colour::colour_word;
use vdp_state::good::control_good;
use vdp_state::state::{Control, Dma, Flags, Port, Step, Store, Timing};

// The layout: the version, and where the fields stand that are read, of one byte and of two or three.
const VERSION: u8 = 3;

const KEPT_KIND: usize = 3;

const PLACE: u32 = 4;

const CONTENT: u32 = 6;

const ADDRESS: u32 = 8;

const CODE: usize = 10;

const PENDING: usize = 11;

const DMA_KIND: usize = 12;

const REMAINING: u32 = 13;

const SOURCE: u32 = 16;

const FILL: usize = 19;

const FLAGS: usize = 20;

const LINE: u32 = 21;

const COUNTER: usize = 23;

const INTERRUPTS: usize = 24;

// A cell's kind, place and content, as a record keeps them. The kind stays a number, since a record may have one that
// there is not, and is then not good.
#[derive(Clone, Copy)]
pub struct KeptCell {
    pub kind: u8,
    pub place: u16,
    pub content: u16,
}

impl From<Store> for KeptCell {
    ghost from_gives = { λ store kept. kept ≡ kept_of store };

    fn from(store: Store) -> Self {
        let (kind, place, content) = match store {
            Store::Nothing => (0, 0, 0),
            Store::Vram(place, w) => (1, place, w),
            Store::Cram(i, w) => (2, u16::from(i), w),
            Store::Vsram(i, w) => (3, u16::from(i), w),
            Store::Register(i, b) => (4, u16::from(i), u16::from(b)),
        };
        KeptCell {
            kind,
            place,
            content,
        }
    }
}

impl From<KeptCell> for Store {
    ghost from_gives = { λ kept store. store ≡ store_of kept };

    fn from(kept: KeptCell) -> Self {
        let index = (kept.place % 256) as u8;
        match kept.kind {
            1 => Store::Vram(kept.place, kept.content),
            2 => Store::Cram(index, kept.content),
            3 => Store::Vsram(index, kept.content),
            4 => Store::Register(index, (kept.content % 256) as u8),
            _ => Store::Nothing,
        }
    }
}

// Three flags as a byte, the first as its lowest bit.
fn flag_byte(a: bool, b: bool, c: bool) -> u8
    ensures { result ≡ flag_byte (a ∷ b ∷ c ∷ []) }
{
    u8::from(a) + 2 * u8::from(b) + 4 * u8::from(c)
}

fn flag_at(n: u8, i: u8) -> bool
    requires { i < 8 }
    ensures { result ≡ flag_at n i }
{
    (n >> i) % 2 == 1
}

fn flags_of(n: u8) -> Flags
    ensures { result ≡ flags_of n }
{
    Flags {
        overflow: flag_at(n, 0),
        collision: flag_at(n, 1),
        used_up: flag_at(n, 2),
    }
}

// The 32 bytes of a step. The bytes of a number are named 2, 1 and 0, the lowest being 0.
pub fn record_of(t: Step) -> [u8; RECORD_SIZE]
    ensures { result ≡ record_of t }
{
    let kept = KeptCell::from(t.store);
    let Control {
        port,
        dma,
        flags,
        timing,
    } = t.control;
    let [place_1, place_0] = kept.place.to_be_bytes();
    let [content_1, content_0] = kept.content.to_be_bytes();
    let [address_1, address_0] = port.address.to_be_bytes();
    let [_, units_2, units_1, units_0] = dma.remaining.to_be_bytes();
    let [_, source_2, source_1, source_0] = dma.source.to_be_bytes();
    let [line_1, line_0] = timing.line.to_be_bytes();
    let pending = u8::from(port.pending);
    let sprites = flag_byte(flags.overflow, flags.collision, flags.used_up);
    let counter = timing.counter;
    let interrupts = flag_byte(timing.vertical, timing.horizontal, false);
    [
        VERSION, 0, 32, kept.kind, place_1, place_0, content_1, content_0, address_1, address_0,
        port.code, pending, dma.kind, units_2, units_1, units_0, source_2, source_1, source_0,
        dma.fill, sprites, line_1, line_0, counter, interrupts, 0, 0, 0, 0, 0, 0, 0,
    ]
}

fn three_at(bytes: &[u8], i: u32) -> u32
    ensures { result ≡ number_at bytes.now i 3 }
{
    let at = i as usize;
    u32::from_be_bytes([
        0,
        get_or(bytes, at, 0),
        get_or(bytes, at + 1, 0),
        get_or(bytes, at + 2, 0),
    ])
}

fn control_of(bytes: &[u8]) -> Control
    ensures { result ≡ (step_of bytes.now).control }
{
    let interrupts = get_or(bytes, INTERRUPTS, 0);
    Control {
        port: Port {
            address: word_at(bytes, ADDRESS),
            code: get_or(bytes, CODE, 0),
            pending: get_or(bytes, PENDING, 0) == 1,
        },
        dma: Dma {
            kind: get_or(bytes, DMA_KIND, 0),
            remaining: three_at(bytes, REMAINING),
            source: three_at(bytes, SOURCE),
            fill: get_or(bytes, FILL, 0),
        },
        flags: flags_of(get_or(bytes, FLAGS, 0)),
        timing: Timing {
            line: word_at(bytes, LINE),
            counter: get_or(bytes, COUNTER, 0),
            vertical: flag_at(interrupts, 0),
            horizontal: flag_at(interrupts, 1),
        },
    }
}

// The step that 32 bytes read as. Inlined, so that the compiler sees in the loops over records that there are so many.
#[inline(always)]
pub fn step_of(bytes: &[u8]) -> Step
    ensures { result ≡ step_of bytes.now }
{
    let kept = KeptCell {
        kind: get_or(bytes, KEPT_KIND, 0),
        place: word_at(bytes, PLACE),
        content: word_at(bytes, CONTENT),
    };
    Step {
        control: control_of(bytes),
        store: Store::from(kept),
    }
}

fn store_good(store: Store) -> bool
    ensures { result ≡ good_store store }
{
    match store {
        Store::Nothing => true,
        Store::Vram(place, _) => place % 2 == 0,
        Store::Cram(i, w) => (i < 64) & (colour_word(w) == w),
        Store::Vsram(i, w) => (i < 40) & (w <= 0x3ff),
        Store::Register(i, _) => i < 24,
    }
}

// Whether bytes are those of a record. They are compared as arrays: slices are by a call that the library never inlines,
// which a step back made for each record.
#[tactic(auto, using(crate::proofs::Records::pointwise_same, crate::proofs::Records::same_lengths))]
fn same(made: [u8; RECORD_SIZE], bytes: &[u8]) -> bool
    ensures { result ≡ same_bytes made bytes.now }
{
    match bytes.as_array() {
        Some(kept) => made == *kept,
        None => false,
    }
}

// Whether a record keeps the layout and its ranges.
pub fn good_record(bytes: &[u8]) -> bool
    ensures { result ≡ good_record bytes.now }
{
    let t = step_of(bytes);
    same(record_of(t), bytes) & control_good(t.control) & store_good(t.store)
}
