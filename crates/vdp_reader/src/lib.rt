// The reader (definition, Scripts, The reader): a script that comes a few bytes at a time, and its calls.
#![tactic(auto)]

pub mod deliver;
pub mod end;
pub mod reader;
pub mod stage;
pub mod take;
