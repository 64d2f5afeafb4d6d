//! The log page of Asymmetric Namespace Access, read and written: log page 0Ch of NVM Express Base Specification 2.0.
//! Files of such pages in boxes, what a page says of a path, and the text that tells of pages.
#![tactic(auto)]

mod boxes;
pub mod laws;
mod naming;
mod numbers;
mod page;
mod reading;
mod telling;
mod writing;

pub use boxes::{BoxError, read_boxes};
pub use naming::{changing, state_for};
pub use page::{Group, Page, PageError};
pub use reading::read_page;
pub use telling::page_text;
pub use writing::write_page;

#[cfg(test)]
mod tests;
