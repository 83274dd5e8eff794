// A line (definition, Drawing): the layout from the registers, planes and window, mixing, shadow and highlight, and the
// call that draws.
#![tactic(auto)]

pub mod columns;
pub mod extent;
pub mod intensity;
pub mod layout;
pub mod line;
pub mod mix;
pub mod number;
pub mod plane;
pub mod view;
