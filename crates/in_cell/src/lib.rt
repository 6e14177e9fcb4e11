// One request in one reached cell: a routine for each kind, in the cell's own bytes, and the rows that it gives.
#![tactic(auto)]

mod cancel;
mod rows;
pub mod second;
mod start;
pub mod step;
