// What the programs share: the numbers of a command line, refusals as a clerk is told of them, and how a program ends.
#![tactic(auto)]

pub mod ending;
pub mod number;
pub mod refusal;
