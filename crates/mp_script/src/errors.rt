//! Why a text is no script.

ghost use Rattle.std.specs.Prelude.{◌≡◌};
ghost use Rattle.mp_script.specs.declared.errors.ScriptError.TheVariants.{NoMemory};

use std::alloc::{AllocError, AllocFailed};
use thiserror::Error;

/// Why a text is no script: the first line with a fault, and in a line its first check that fails. Each carries the
/// number of the line, from 1, but `NotAscii`, which carries the offset of the byte.
#[derive(Clone, Copy, Debug, Error)]
pub enum ScriptError {
    /// The byte may not stand in a script.
    #[error("the byte at offset {0} may not stand in a script")]
    NotAscii(u32),
    /// The words are no line of a script, or it may not stand there.
    #[error("line {0} is no line of a script, or may not stand there")]
    Line(u32),
    /// A name or a box isn't there, or a request that is to be finished isn't submitted.
    #[error("line {0} names what isn't there")]
    Unknown(u32),
    /// A number is none, or out of its range.
    #[error("line {0} has a number that is none, or out of its range")]
    Number(u32),
    /// The request was submitted or the attempt answered before, or there is a keeper already.
    #[error("line {0} says again what stands before it")]
    Repeat(u32),
    /// The line is the keeper's, and stands in another lane.
    #[error("line {0} is the keeper's, and stands in another lane")]
    NotKeeper(u32),
    /// The line is one too many, or begins a lane that is.
    #[error("line {0} is one too many, or begins one lane too many")]
    Limit(u32),
    /// Memory ran out.
    #[error("out of memory")]
    NoMemory,
}

impl From<AllocError> for ScriptError {
    ghost from_gives = { λ _ e. e ≡ NoMemory };

    fn from(_e: AllocError) -> ScriptError {
        ScriptError::NoMemory
    }
}

impl<T: Drop> From<AllocFailed<T>> for ScriptError {
    ghost from_gives = { λ _ e. e ≡ NoMemory };

    fn from(_e: AllocFailed<T>) -> ScriptError {
        ScriptError::NoMemory
    }
}
