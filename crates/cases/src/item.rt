// The items of the text: a case's name, a command, a value to show, a group, a mark, a comment.
use crate::case::{Case, Marks, named};
use crate::text::Place;
use crate::value::value;
use std::convert::Infallible;
use std::io;
use stream::command::Command;
use stream::digest::{bytes, state};
use stream::line::Line;
use stream::outcome::Outcome;
use stream::session::obey;
use vdp_script::admitted::admitted;

// The letters of the ops 0 to 39, with a space where there is none.
const LETTERS: &[u8; 40] = b" cCdDrsulfkpxiavoqw@y~e         !zbgnmth";

// `= NAME`: a case begins.
fn begin(case: &mut Case<'_>) {
    let end = case.place.line_end();
    let name = case.place.onward(2).until(end);
    *case = named(name, end, case.marks);
}

// Writes a name that is there, and a colon after it.
fn write_name<R: Print>(rt: &R, name: Option<&[u8]>) -> io::Result<()> {
    let Some(name) = name else {
        return Ok(());
    };
    rt.write_all(name)?;
    rt.write_all(b": ")
}

// `?WHICH NAME` or `?WHICH.INDEX NAME`: a value is shown.
fn show<R: Print>(rt: &R, case: &mut Case<'_>) -> io::Result<()> {
    let end = case.place.line_end();
    let mut place = case.place.onward(1);
    let which = place.number();
    let index = place.after_dot(which);
    write_name(rt, case.name)?;
    write_name(rt, place.onward(1).until(end))?;
    case.place = end;
    let shown = value(case, which, index);
    println!(rt; "{shown:04x}")
}

// `(TIMES`: the items up to `)` are done so often, once at least.
fn repeat(case: &mut Case<'_>) {
    let mut place = case.place.onward(1);
    case.times = place.number();
    case.group = place;
    case.place = place;
}

// `)`: a group of items has been done once more.
fn done(case: &mut Case<'_>) {
    if case.times <= 1 {
        case.place = case.place.onward(1);
    } else {
        case.times -= 1;
        case.place = case.group;
    }
}

// A letter and up to three numbers with dots between them: a, b and c. One number serves for all three.
fn act(case: &mut Case<'_>) {
    let letter = case.place.byte();
    let mut place = case.place.onward(1);
    let a = place.number();
    let b = place.after_dot(a);
    let c = place.after_dot(b);
    case.place = place;
    let Some(op) = LETTERS.iter().position(|l| *l == letter) else {
        return;
    };
    let command = Command {
        op: op as u8,
        a: (a % 256) as u8,
        b: (b % 65536) as u16,
        c,
    };
    let mut last = case.last;
    let Ok(()) = obey(
        &mut case.machine,
        command,
        |line| -> Result<(), Infallible> {
            if let Line::Call { outcome, .. } = line {
                last = outcome;
            }
            Ok(())
        },
    );
    case.last = last;
}

// `j`: the script is judged as the program `script` does it.
fn judge(case: &mut Case<'_>) {
    case.last = Outcome::from(admitted(case.machine.script.lent()));
}

// `*`: the state and VRAM are marked, for a later case to be compared with.
fn mark(case: &mut Case<'_>) {
    case.marks = Marks {
        state: state(case.machine.state),
        vram: bytes(0, &case.machine.vram.bytes),
    };
}

// What the next item does. `#` begins a comment.
pub(crate) fn item<R: Print>(rt: &R, case: &mut Case<'_>) -> io::Result<()> {
    let next = case.place.onward(1);
    match case.place.byte() {
        0..=b' ' => case.place = next,
        b'=' => begin(case),
        b'?' => show(rt, case)?,
        b'(' => repeat(case),
        b')' => done(case),
        b'*' => {
            mark(case);
            case.place = next;
        }
        b'j' => {
            judge(case);
            case.place = next;
        }
        b'#' => case.place = case.place.line_end(),
        _ => act(case),
    }
    Ok(())
}
