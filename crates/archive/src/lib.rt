#![tactic(auto)]

pub mod choice;
pub mod reading;
pub mod request;
