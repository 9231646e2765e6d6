// The listing of a sheet, as bytes.
#![tactic(auto)]

mod line;
mod lines;
pub mod listing;
