// The calls in the form where the caller lends the state (definition, Calls for a host program), under their names for C,
// which `kuthbareen_c` exports. Each makes the call by value on a state that is lent, and stores the state back.
#![tactic(auto)]

pub mod answer;
pub mod fresh;
pub mod line;
pub mod ports;
pub mod reader;
pub mod run;
pub mod script;
pub mod tape;
pub mod timing;
