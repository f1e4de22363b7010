#![tactic(auto)]

mod content;
mod entry;
pub mod reading;
mod record;
pub mod table;
