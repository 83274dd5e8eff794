// DMA (definition, DMA; notes s11): where a transfer finds its words, one unit of each kind, and the run.
#![tactic(auto)]

mod bytes;
pub mod run;
pub mod source;
mod transfer;
pub mod unit;
