//! How far a removal has come.

/// How far a removal has come between two looks.
#[derive(Clone, Copy)]
pub enum Stage {
    /// The path is marked.
    Marked,
    /// The first side of grace period A is closed.
    HalfA,
    /// Grace period A is over, the current words are cleared, and the path isn't listed any more.
    Unlisted,
    /// The first side of grace period B is closed.
    HalfB,
    /// Grace period B is over.
    Past,
}
