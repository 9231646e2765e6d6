// The records of a budget sheet: fields, rows of fields, what each kind of record holds, and writing them into a buffer.
#![tactic(auto)]

mod field;
mod kind;
pub mod layout;
pub mod reply;
mod row;
pub mod write;
