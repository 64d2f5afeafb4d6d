//! Why a lane doesn't step.

use thiserror::Error;

/// Why a lane doesn't step.
#[derive(Clone, Copy, Debug, Error)]
pub enum LaneError {
    #[error("out of memory")]
    NoMemory,
}
