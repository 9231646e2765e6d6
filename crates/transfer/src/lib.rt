// Components and pairs between a sheet and the program: reading, writing, and what a host is answered.
#![tactic(auto)]

pub mod known;
pub mod pair;
pub mod read;
pub mod reply;
pub mod write;
