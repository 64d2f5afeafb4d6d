//! The words that every layer speaks: numbers with a range, the state of a path and of the list of paths, what may
//! be done to them, and requests with their tries.
#![tactic(auto)]

pub mod answers;
pub mod effect;
pub mod effect_laws;
pub mod entry;
pub mod flight;
mod keeps;
mod kept_try;
mod later;
pub mod laws;
pub mod like;
pub mod name;
pub mod name_laws;
pub mod names;
pub mod near;
pub mod note;
pub mod numbered;
pub mod numbers;
pub mod op;
pub mod order;
pub mod packing_laws;
pub mod path;
pub mod place_laws;
pub mod reading;
pub mod request;
pub mod row;
pub mod slots;
pub mod states;
pub mod status;
#[cfg(test)]
mod tests;
pub mod tries;
pub mod trying;
pub mod words;
