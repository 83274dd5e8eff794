// Step back (definition, The tape): the top k records undone, from the top down.
ghost use Rattle.std.specs.Prelude.{◌≡◌, ◌≤◌};
ghost use Rattle.std.specs.Slice.Exact.{rchunks_exact_size, rchunks_exact_steps};
ghost use Rattle.std.proofs.lemmas.Iterator.{YieldsList};
ghost use Rattle.vdp_state.specs.Answer.{number_in};
ghost use Rattle.vdp_state.specs.State.{chip};
ghost use Rattle.vdp_tape.specs.Number.{capacity as capacity_of};
ghost use Rattle.vdp_tape.specs.Recorder.{recorder, tape_answer_of, tape_outcome};
ghost use Rattle.vdp_tape.specs.StepBack.{top_records, undo as undone, back_number, step_back};

use crate::number::{RECORD_SIZE, capacity};
use crate::record::{good_record, step_of};
use crate::recorder::Recorded;
use std::slice::RChunksExact;
use vdp_ports::refusal::VRAM_SIZE;
use vdp_state::answer::Refusal;
use vdp_state::cell::perform;
use vdp_state::good::good;
use vdp_state::state::State;

// The top k of n records, from the top down.
fn top(tape: &[u8], n: usize, k: usize) -> RChunksExact<'_, u8>
    requires { (k ≤ n) × (n ≤ capacity_of tape.now) }
    ensures size { rchunks_exact_size result ≡ 32 }
    ensures records { YieldsList rchunks_exact_steps (λ x. x.now) result (top_records tape.now n k) }
{
    tape[RECORD_SIZE * (n - k)..RECORD_SIZE * n].rchunks_exact(RECORD_SIZE)
}

// Undoes the top k of n records.
fn undo(s: State, vram: &mut [u8], tape: &[u8], n: usize, k: usize) -> State
    requires { (k ≤ n) × (n ≤ capacity_of tape.now) }
    ensures { chip result vram.new ≡ undone tape.now n k (chip s vram.old) }
{
    let mut next = s;
    for record in top(tape, n, k) {
        next = perform(next, vram, step_of(record));
    }
    next
}

// Whether a step back is refused.
fn back_check(s: State, vram: &[u8], tape: &[u8], count: usize, k: usize) -> Result<(), Refusal>
    ensures { number_in result ≡ back_number (recorder s vram.now tape.now count) k }
{
    if !good(s) {
        return Err(Refusal::BadState);
    }
    if (vram.len() != VRAM_SIZE) | (capacity(tape) < count) {
        return Err(Refusal::BadBuffer);
    }
    if count < k {
        return Err(Refusal::NothingThere);
    }
    if !top(tape, count, k).all(good_record) {
        return Err(Refusal::BadRecord);
    }
    Ok(())
}

// Takes back the last k steps.
pub fn step_back(
    s: State,
    vram: &mut [u8],
    tape: &[u8],
    count: usize,
    k: usize,
) -> Result<Recorded, Refusal>
    ensures { tape_outcome (tape_answer_of s count result) vram.new tape.now
        ≡ step_back (recorder s vram.old tape.now count) k }
{
    back_check(s, vram, tape, count, k)?;
    Ok(Recorded {
        result: 0,
        count: count - k,
        state: undo(s, vram, tape, count, k),
    })
}
