// The budget sheet: one walk over its components and tasks and one over the pairs behind them, which check it and find its components.
#![tactic(auto)]

pub mod check;
pub mod contents;
pub mod fault;
pub mod judging;
pub mod pairs;
pub mod part;
pub mod walk;
