//! What a status asks for, and which attempts make a hop.
#![tactic(auto)]

pub mod class;
pub mod disposition;
pub mod laws;
pub mod statuses;
#[cfg(test)]
mod tests;
