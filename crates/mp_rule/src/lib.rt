//! The rule of the shared table: what holds of its words and of what all passes know, between any two steps, and that
//! each kind of step keeps it. Everything here is a law: no function does anything.
#![tactic(auto)]

pub mod callers;
pub mod in_words;
pub mod keeper_steps;
pub mod lane_steps;
pub mod passes;
