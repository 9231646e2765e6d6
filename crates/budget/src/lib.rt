// The ground of the judge: quantities, tasks, interfaces, components, their common period, demand and supply.
#![tactic(auto)]

pub mod answered;
pub mod check;
pub mod common;
pub mod common_period;
pub mod component;
pub mod demand;
pub mod edit;
pub mod interface;
pub mod known;
pub mod make;
pub mod quantity;
pub mod refusal;
pub mod right;
pub mod supply;
pub mod task;
