//! Why a run isn't gathered.

ghost use Rattle.std.specs.Prelude.{◌≡◌};
ghost use Rattle.mp_legal.specs.declared.gather_error.GatherError.TheVariants.{NoMemory};

use std::alloc::{AllocError, AllocFailed};
use thiserror::Error;

/// Why a run isn't gathered.
#[derive(Clone, Copy, Debug, Error)]
pub enum GatherError {
    #[error("out of memory")]
    NoMemory,
}

impl From<AllocError> for GatherError {
    ghost from_gives = { λ _ e. e ≡ NoMemory };

    fn from(_error: AllocError) -> GatherError {
        GatherError::NoMemory
    }
}

impl<T: Drop> From<AllocFailed<T>> for GatherError {
    ghost from_gives = { λ _ e. e ≡ NoMemory };

    fn from(_error: AllocFailed<T>) -> GatherError {
        GatherError::NoMemory
    }
}
