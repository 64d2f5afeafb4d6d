//! Why a call of a desk doesn't go on.

ghost use Rattle.std.specs.Prelude.{◌≡◌};
ghost use Rattle.mp_desk.specs.declared.halt.Halt.TheVariants.{NoMemory};

use crate::full::Full;
use mp_keep::keep_error::KeepError;
use mp_record::notes::NoteError;
use mp_words::request::SubmitError;

/// Why a call of a desk doesn't go on.
#[derive(Clone, Copy)]
pub enum Halt {
    /// Memory ran out.
    NoMemory,
    /// Fewer units are left to the lane than its next call needs.
    Spent,
}

impl From<Full> for Halt {
    ghost from_gives = { λ _ e. e ≡ NoMemory };

    fn from(_error: Full) -> Halt {
        Halt::NoMemory
    }
}

impl From<KeepError> for Halt {
    ghost from_gives = { λ _ e. e ≡ NoMemory };

    fn from(_error: KeepError) -> Halt {
        Halt::NoMemory
    }
}

impl From<NoteError> for Halt {
    ghost from_gives = { λ _ e. e ≡ NoMemory };

    fn from(_error: NoteError) -> Halt {
        Halt::NoMemory
    }
}

impl From<SubmitError> for Halt {
    ghost from_gives = { λ _ e. e ≡ NoMemory };

    fn from(_error: SubmitError) -> Halt {
        Halt::NoMemory
    }
}
