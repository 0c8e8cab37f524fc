// The lines of a run, written into a caller's buffer.
#![tactic(auto)]

pub mod fault;
pub mod line;
pub mod pen;
