#![tactic(auto)]

mod held;
mod slots;

pub use held::{Queue, Unstored};
pub use slots::{Keyed, Slot};

#[cfg(test)]
mod tests;
