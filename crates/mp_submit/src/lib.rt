//! The hops of a request: its submits, and the finish of each flight.
#![tactic(auto)]

mod choose;
pub mod finish;
mod hop;
mod select;
pub mod submit;

pub use mp_words::request::Request;
pub use mp_words::trying::{Back, Outcome, Try, TryEnd};
