//! What a topology file says, and why a text is none.
#![tactic(auto)]

mod controllers;
mod distance;
pub mod errors;
mod fields;
mod fits;
pub mod laws;
pub mod names;
mod near;
mod opening;
pub mod reading;
#[cfg(test)]
mod tests;
pub mod topology;

pub use mp_words::near::Near;
