// What planes and sprites draw with (definition, Drawing): the pixels of patterns and the dots of cells.
#![tactic(auto)]

pub mod dot;
pub mod pattern;
pub mod width;
