#![tactic(auto)]

pub mod hand;
pub mod laws;
mod mark;
mod marks;
pub mod measure;
mod shown;
pub mod version;
mod walk;
mod write;
