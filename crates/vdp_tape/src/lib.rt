// The tape (definition, The tape): records, recorded calls and step back, and the claim over whole sequences of calls.
#![tactic(auto)]

pub mod calls;
pub mod line;
pub mod number;
pub mod record;
pub mod recorder;
pub mod step_back;
pub mod timing;
