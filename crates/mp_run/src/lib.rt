//! Runs a script on one thread, and the top call.
#![tactic(auto)]

mod beginning;
mod closed;
mod desk_laws;
mod draining;
pub mod error;
pub mod first_words;
mod forms;
mod gathering;
mod help;
pub mod laws;
mod opening;
mod reading;
pub mod run;
mod runner;
pub mod status;
#[cfg(test)]
mod tests;
mod texts;
pub mod top;
mod turning;
mod turns;
pub mod unit_laws;
