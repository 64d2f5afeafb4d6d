//! The keeper of the list of paths: it adds paths, removes them, frees their slots once nobody can use them, and sets
//! the policy.
#![tactic(auto)]

pub mod add;
pub mod add_error;
pub mod added;
mod clear;
pub mod deep;
mod keep;
pub mod keep_error;
pub mod keeper;
pub mod laws;
mod orders;
pub mod policy;
pub mod reap;
pub mod reaped;
pub mod removal;
pub mod remove;
pub mod remove_error;
pub mod stage;
pub mod stop;
