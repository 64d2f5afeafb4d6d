//! What a step does to the view of the pass that steps, and to the words where they are told: the traits `Steps` and
//! `KeeperSteps` with one method for each kind of step, and what a section is made of.
#![tactic(auto)]

pub mod gate;
pub mod laws;
pub mod section;
pub mod steps;
pub mod view;

pub use mp_words::entry::{Closing, Grace, OrderEntry, RowEntry};
pub use mp_words::flight::Flight;
pub use mp_words::note::Note;
