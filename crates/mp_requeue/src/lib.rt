//! Lists of requests that wait to be submitted again.
#![tactic(auto)]

pub mod private;
#[cfg(test)]
mod tests;
