//! What a lane wants.

/// What a lane wants next.
#[derive(Clone, Copy)]
pub enum Wants {
    /// To run its next line.
    Line,
    /// The list: its next line is a `requeue`, and none was given for it.
    List,
    /// To end: its last line was run.
    End,
    /// Nothing: it has ended, was spent or stopped, or memory ran out.
    Nothing,
}
