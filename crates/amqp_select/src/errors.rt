//! Why words are no rules.

use std::alloc::{AllocError, AllocFailed};
use std::error::Error;
use std::fmt;

/// Why words are no rules.
#[derive(Clone, Copy, Debug, PartialEq, Eq)]
pub enum RuleError {
    /// No word, or more than 64.
    Count,

    /// The word at this place, from 0 on, is the first that is no rule.
    Malformed { place: usize },

    /// Out of memory.
    NoMemory,
}

impl fmt::Display for RuleError {
    ghost use Rattle.std.specs.Prelude.{Some};
    ghost use Rattle.amqp_select.specs.Refusals.{error_text};

    ghost output = { λ error. Some (error_text error) };

    fn fmt<W: fmt::Write>(&self, f: &mut fmt::Formatter<W>) -> fmt::Result {
        match self {
            RuleError::Count => f.write_str("Count"),
            RuleError::Malformed { place } => write!(f, "Malformed at {place}"),
            RuleError::NoMemory => f.write_str("NoMemory"),
        }
    }
}

impl Error for RuleError {}

impl<T: Drop> From<AllocFailed<T>> for RuleError {
    ghost use Rattle.std.specs.Prelude.{◌≡◌};
    ghost use Rattle.amqp_select.specs.declared.errors.RuleError.TheVariants as rule_errors;

    ghost from_gives = { λ _ error. error ≡ rule_errors.NoMemory };

    fn from(_error: AllocFailed<T>) -> RuleError {
        RuleError::NoMemory
    }
}
