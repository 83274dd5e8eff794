// Scripts (definition, Scripts): their form, writing an item, and running them by the plain calls.
#![tactic(auto)]

pub mod admitted;
pub mod call;
pub mod form;
pub mod item;
pub mod judge;
pub mod missing;
pub mod run;
pub mod write;
