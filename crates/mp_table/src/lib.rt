//! The steps of the core over a table of 42 words that threads share. No lock is taken and nothing waits: each step is
//! one sequentially consistent load, store, addition or compare-and-exchange of one word.
#![tactic(auto)]

pub mod atoms;
pub mod error;
pub mod keeper_pass;
pub mod keeper_steps;
pub mod lane_steps;
pub mod laws;
#[cfg(test)]
mod many_tests;
pub mod moves;
pub mod on;
pub mod on_keeper;
pub mod pass;
pub mod passes;
pub mod shared;
#[cfg(test)]
mod tests;
pub mod token;
pub mod unpack;
