// What a host program in C asks for by numbers and byte slices (definition, Calls for a host program): a colour word's
// parts and the pixels of a pattern's row. `vdp_lent` has the calls on the chip itself; `kuthbareen_c` exports both.
#![tactic(auto)]

pub mod colour;
pub mod row;
