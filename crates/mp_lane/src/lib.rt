//! A lane of a script over any steps: what it wants, and its steps.
#![tactic(auto)]

pub mod error;
mod keeper_lines;
pub mod lane;
mod lines;
pub mod pages;
pub mod stepped;
pub mod wants;
