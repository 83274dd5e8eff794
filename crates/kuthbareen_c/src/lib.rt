// The static library that C programs link: an export for each function of include/kuthbareen.h, with the contract of the
// function that it calls in `vdp_lent` or `vdp_host`. A library of its own, since a crate is a library or a static one.
#![tactic(auto)]

pub mod fresh;
pub mod host;
pub mod line;
pub mod ports;
pub mod reader;
pub mod run;
pub mod script;
pub mod tape;
pub mod timing;
