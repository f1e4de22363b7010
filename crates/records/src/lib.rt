#![tactic(auto)]

pub mod body_record;
mod calendar;
pub mod delta_record;
pub mod head_record;
mod name;
mod numeral;
pub mod serial_list;
pub mod sid;
