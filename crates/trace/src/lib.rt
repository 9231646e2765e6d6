// Legal supply: the trace question.
#![tactic(auto)]

pub mod legal;
