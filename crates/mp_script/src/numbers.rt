//! The numbers of a line.

/// The numbers that the words of a line are which have to be numbers, in order.
#[derive(Clone, Copy)]
pub(crate) struct Numbers {
    pub(crate) first: Option<u64>,
    pub(crate) second: Option<u64>,
}
