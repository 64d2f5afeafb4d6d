//! Why there is no table.

use thiserror::Error;

/// Why no table was made.
#[derive(Clone, Copy, Debug, Error)]
pub enum TableError {
    #[error("no memory")]
    NoMemory,
}
