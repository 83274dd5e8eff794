// Frame timing (definition, Frame timing): a line begins, the interrupt level that is offered and its acknowledge, and
// the V counter.
#![tactic(auto)]

pub mod interrupt;
pub mod line_begins;
mod timing;
pub mod v_counter;
