// The counter: takes slips to the account.
#![tactic(auto)]

pub mod counter;
pub mod fault;
pub mod open_account;
pub mod settle;
