// Tariffs: days, tables of steps, what a supply means, the three tariffs, discounts, plans and fuel prices.
#![tactic(auto)]

pub mod capacity;
pub mod day;
pub mod discount;
pub mod fault;
pub mod fuel;
pub mod kind;
pub mod night;
pub mod plan;
pub mod refusal;
pub mod refused;
pub mod rounding;
pub mod seasonal;
pub mod standard;
pub mod steps;
pub mod supply;
