//! A row change of a controller's path, by a line or by a failover, in a section of its own.
#![tactic(auto)]

pub mod change;
mod clear;
mod find;
pub mod log;
pub mod pending;
#[cfg(test)]
mod tests;

pub use mp_words::entry::RowEntry;
pub use mp_words::flight::Flight;
pub use mp_words::note::Note;
pub use mp_words::op::{Maker, Op};
