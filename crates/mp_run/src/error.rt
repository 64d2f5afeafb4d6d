//! Why a run isn't made.

ghost use Rattle.std.specs.Prelude.{◌≡◌};
ghost use Rattle.mp_run.specs.declared.error.RunError.TheVariants.{NoMemory};

use mp_words::numbers::LaneId;
use std::alloc::{AllocError, AllocFailed};

/// Why a run isn't made.
#[derive(Clone, Copy)]
pub enum RunError {
    /// Memory ran out.
    NoMemory,
    /// The first lane, by number, that had fewer units left than its next call needs; 16 is the drain.
    Spent(LaneId),
}

impl From<AllocError> for RunError {
    ghost from_gives = { λ _ e. e ≡ NoMemory };

    fn from(_error: AllocError) -> RunError {
        RunError::NoMemory
    }
}

impl<T: Drop> From<AllocFailed<T>> for RunError {
    ghost from_gives = { λ _ e. e ≡ NoMemory };

    fn from(_error: AllocFailed<T>) -> RunError {
        RunError::NoMemory
    }
}
