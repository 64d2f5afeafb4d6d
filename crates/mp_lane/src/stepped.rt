//! How a step of a lane ended.

/// How a step of a lane ended.
#[derive(Clone, Copy)]
pub enum Stepped {
    /// The line was run.
    Ran,
    /// The lane's flights are finished, and it is over.
    Ended,
    /// Fewer units were left than the next call needs. The lane's flights are ended, and it is over.
    Spent,
}
