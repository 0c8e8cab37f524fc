// Settling a month: boxes, readings, totals, the dearest-first choice, charges and net.
#![tactic(auto)]

mod charges;
pub mod choice;
pub mod deposit_box;
pub mod fault;
pub mod prices;
pub mod reading;
pub mod rows;
pub mod settlement;
pub mod split;
pub mod totals;
mod usage;
