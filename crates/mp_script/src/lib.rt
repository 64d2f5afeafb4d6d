//! What a script says, and why a text is none.
#![tactic(auto)]

mod answered;
mod building;
mod checking;
mod cut;
mod earlier;
pub mod errors;
pub mod laws;
mod numbers;
pub mod pages;
mod places;
mod progress;
pub mod reading;
mod requests;
pub mod script;
mod setting;
mod shapes;
mod splitting;
mod submits;
#[cfg(test)]
mod tests;
mod wording;
pub mod writing;
#[cfg(test)]
mod writing_tests;

pub use mp_words::answers::{Answer, AnswerError, Answers};
