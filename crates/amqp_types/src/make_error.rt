//! The error of making a value.

use crate::errors::NoMemory;
use std::alloc::AllocError;
use thiserror::Error;

/// Why a value was not made.
#[derive(Clone, Copy, Debug, PartialEq, Eq, Error)]
pub enum MakeError {
    /// More bytes than the type holds.
    #[error("TooLong")]
    TooLong,

    /// Out of memory.
    #[error("NoMemory")]
    NoMemory,
}

impl From<NoMemory> for MakeError {
    ghost use Rattle.std.specs.Prelude.{◌≡◌};
    ghost use Rattle.amqp_types.specs.declared.make_error.MakeError.TheVariants as make_errors;

    ghost from_gives = { λ _ error. error ≡ make_errors.NoMemory };

    fn from(_error: NoMemory) -> MakeError {
        MakeError::NoMemory
    }
}

impl From<AllocError> for MakeError {
    ghost use Rattle.std.specs.Prelude.{◌≡◌};
    ghost use Rattle.amqp_types.specs.declared.make_error.MakeError.TheVariants as make_errors;

    ghost from_gives = { λ _ error. error ≡ make_errors.NoMemory };

    fn from(_error: AllocError) -> MakeError {
        MakeError::NoMemory
    }
}
