//! A line of text, put together in place: bytes, words and decimal numbers are placed one behind another in an array of
//! 128 bytes, and the line goes to the text in one piece.
#![tactic(auto)]

pub mod digits;
pub mod line;
pub mod list;
#[cfg(test)]
mod tests;
