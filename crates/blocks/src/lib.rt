#![tactic(auto)]

pub mod indexed;
mod layout;
mod marks;
pub mod packed;
mod sheet;
pub mod store;
mod tally;
