#![tactic(auto)]

mod listed;
mod set;

pub use listed::Lists;
pub use set::{SERIALS, SerialSet};
