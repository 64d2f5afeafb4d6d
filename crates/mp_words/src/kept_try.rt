//! How a try is kept.

/// The place of a try that is kept whole, or a listed try in few bytes.
///
/// `Again` is as the whole try at the place `like`, but for its number and the ticket in its note.
#[derive(Clone, Copy)]
pub(crate) enum KeptTry {
    Whole(u32),
    Again { hop: u32, ticket: u32, like: u32 },
}
