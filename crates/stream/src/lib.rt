// The replay stream (docs/STREAM.md): commands of 8 bytes, what is held between them, and what each does and answers.
#![tactic(auto)]

mod calls;
pub mod command;
pub mod digest;
mod fields;
mod generator;
pub mod held;
pub mod line;
pub mod machine;
mod op;
mod other;
pub mod outcome;
mod reader;
pub mod session;
mod setup;
