//! What a run leaves, and its text.
#![tactic(auto)]

pub mod event;
mod event_text;
mod history_text;
mod kept;
mod kept_text;
mod lane_text;
mod note_text;
pub mod notes;
mod packed;
mod plain;
mod request_text;
mod room;
pub mod run;
#[cfg(test)]
mod tests;
pub mod text;
mod words;
