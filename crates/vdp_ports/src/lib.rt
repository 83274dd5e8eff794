// The ports (definition, Ports): what a control write, data write, data read, status read and new frame decide, and the
// calls that carry it out; and the parts of a colour word.
#![tactic(auto)]

pub mod access;
pub mod control;
pub mod data;
pub mod frame;
pub mod length;
pub mod parts;
pub mod refusal;
pub mod status;
pub mod taken;
