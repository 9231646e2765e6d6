// The run: a step-by-step walk over a trace with jobs.
#![tactic(auto)]

pub mod jobs;
mod scan;
pub mod walk;
