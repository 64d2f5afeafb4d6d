//! The run of a script on one thread as definitions, worked cases of it, and the laws that calls made of steps are its
//! steps. All but `gather`, which puts the parts of a run together, is a law: a function that does nothing.
#![tactic(auto)]

pub mod calls;
pub mod cases;
pub mod desk_turns;
pub mod desks;
pub mod gather;
pub mod gather_error;
pub mod gather_laws;
mod histories;
mod in_order;
pub mod keeps;
pub mod paths;
#[cfg(test)]
mod tests;
pub mod units;
