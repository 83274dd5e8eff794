// The sprites of a line (definition, Drawing): the walk over the table, what each kept sprite may show, and the dots
// of the columns.
#![tactic(auto)]

pub mod paint;
pub mod sprite;
pub mod sprite_line;
pub mod used;
pub mod walk;
