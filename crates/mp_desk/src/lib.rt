//! The desk of a lane: its requests on their way, what it has to list, its notes, and its calls over any steps.
#![tactic(auto)]

pub mod aloft;
mod change;
pub mod desk;
mod end;
mod finish;
pub mod flights;
pub mod flying;
pub mod full;
pub mod halt;
mod index;
mod keeper;
mod last;
pub mod laws;
pub mod made;
pub mod noted;
mod pay;
pub mod roomy;
mod submit;
mod told;
