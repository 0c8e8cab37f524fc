// The account: its calls, the ledger it is held to, and the law of runs.
#![tactic(auto)]

pub mod account;
pub mod calendar;
pub mod call;
pub mod day_table;
mod entry;
pub mod fault;
pub mod replay;
pub mod terms;
