// Verdict and margin in a single call, and the smallest capacity.
#![tactic(auto)]

pub mod answer;
pub mod capacity;
mod judgeable;
pub mod judging;
pub mod known;
mod margin;
mod scan;
pub mod signed;
mod steps;
mod supplied;
mod verdict;
