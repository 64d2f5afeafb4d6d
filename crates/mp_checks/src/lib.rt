//! What the readers of files stand on: the words by which a reader's refusals are stated, a list of checks of which the
//! first that fails decides, and the decimal numbers that words are.
#![tactic(auto)]

pub mod digits;
pub mod laws;
