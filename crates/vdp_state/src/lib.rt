// The ground of the model: the chip's state, what makes a state good, the colour word, the numbers a call may answer,
// and the cells that a step stores to, with the step that puts an old content back.
#![tactic(auto)]

pub mod answer;
pub mod cell;
pub mod colour;
pub mod fresh;
pub mod good;
pub mod kind;
pub mod state;
