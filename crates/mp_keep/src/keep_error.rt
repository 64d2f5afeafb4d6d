//! Why no room was made.

use thiserror::Error;

/// Why no room was made.
#[derive(Clone, Copy, Debug, Error)]
pub enum KeepError {
    #[error("out of memory")]
    NoMemory,
}
