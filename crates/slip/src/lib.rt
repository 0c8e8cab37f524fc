// Slips: the bytes in which openings and calls come.
#![tactic(auto)]

pub mod fault;
pub mod reader;
pub mod slip;
pub mod writer;
