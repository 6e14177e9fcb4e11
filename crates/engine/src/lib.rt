// One request applied to one table with one answer: one walk over cells and items for all kinds.
#![tactic(auto)]

pub mod apply;
mod reach;
mod walk;
