//! Why no room was made.

ghost use Rattle.std.specs.Prelude.{◌≡◌};
ghost use Rattle.mp_desk.specs.declared.full.Full.TheVariants.{NoMemory};

use std::alloc::{AllocError, AllocFailed};
use thiserror::Error;

/// Why no room was made for more.
#[derive(Clone, Copy, Debug, Error)]
pub enum Full {
    #[error("out of memory")]
    NoMemory,
}

impl From<AllocError> for Full {
    ghost from_gives = { λ _ e. e ≡ NoMemory };

    fn from(_error: AllocError) -> Full {
        Full::NoMemory
    }
}

impl<T: Drop> From<AllocFailed<T>> for Full {
    ghost from_gives = { λ _ e. e ≡ NoMemory };

    fn from(_error: AllocFailed<T>) -> Full {
        Full::NoMemory
    }
}
