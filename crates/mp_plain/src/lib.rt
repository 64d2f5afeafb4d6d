//! The steps of the core on one thread, for seventeen lanes over words of plain memory.
#![tactic(auto)]

pub mod calls;
pub mod cells;
pub mod keeper;
pub mod ledger;
pub mod notes;
pub mod plain;
pub mod steps;
#[cfg(test)]
mod tests;
pub mod turns;
pub mod unpacked;
