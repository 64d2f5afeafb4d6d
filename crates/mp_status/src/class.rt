//! What follows an attempt.

/// What follows an attempt: the request is complete, it comes back from its path, by an ANA status or by another
/// status of the path, or the next attempt is made on the same path.
#[derive(Clone, Copy)]
pub enum Class {
    Complete,
    Failover { ana: bool },
    Retry,
}
