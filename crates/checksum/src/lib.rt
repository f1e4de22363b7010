#![tactic(auto)]

mod draft;
pub mod layer;
pub mod sum;
