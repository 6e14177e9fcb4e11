// The program's input in frames and its output in lines, over lent bytes: what "broadcast report" does between a read and a write.
#![tactic(auto)]

pub mod frame;
pub mod text;
