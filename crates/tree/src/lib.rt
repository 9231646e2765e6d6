// Components inside components: the workload of a parent, and every component of a sheet judged after its children.
#![tactic(auto)]

pub mod answer;
mod below;
pub mod offer;
mod offering;
mod outcome;
pub mod place;
pub mod turn;
mod wanted;
mod workload;
