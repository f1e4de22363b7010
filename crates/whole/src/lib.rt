#![tactic(auto)]

pub mod compared;
pub mod measure;
pub mod stored;
pub mod written;
