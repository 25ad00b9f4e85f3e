//! Laws of equality: two values are equal exactly where contracts see the same, so no field is left out.

ghost use Rattle.std.specs.Prelude.{◌≡◌, ◌↔◌, IsTrue};

use crate::class::AMQPClass;
use crate::credentials::{AMQPUserInfo, Credentials, SASLMechanism};
use crate::errors::{AMQPError, AMQPErrorKind, AMQPHardError, AMQPSoftError};

/// Methods of all classes are equal exactly where their classes, their methods and all fields are the same.
#[tactic(auto, using(crate::proofs::EqualClasses::same_class))]
pub fn equal_classes(a: &AMQPClass, b: &AMQPClass) -> bool
    ensures { IsTrue result ↔ (a.now ≡ b.now) }
{
    a == b
}

/// Errors that close a channel are equal exactly where they are the same.
#[tactic(auto, using(crate::proofs::EqualClasses::same_soft_error))]
pub fn equal_soft_errors(a: &AMQPSoftError, b: &AMQPSoftError) -> bool
    ensures { IsTrue result ↔ (a.now ≡ b.now) }
{
    a == b
}

/// Errors that close a connection are equal exactly where they are the same.
#[tactic(auto, using(crate::proofs::EqualClasses::same_hard_error))]
pub fn equal_hard_errors(a: &AMQPHardError, b: &AMQPHardError) -> bool
    ensures { IsTrue result ↔ (a.now ≡ b.now) }
{
    a == b
}

/// Errors without their messages are equal exactly where they are the same.
#[tactic(auto, using(crate::proofs::EqualClasses::same_kind))]
pub fn equal_error_kinds(a: &AMQPErrorKind, b: &AMQPErrorKind) -> bool
    ensures { IsTrue result ↔ (a.now ≡ b.now) }
{
    a == b
}

/// Errors are equal exactly where they and their messages are the same.
#[tactic(auto, using(crate::proofs::EqualClasses::same_kind))]
pub fn equal_errors(a: &AMQPError, b: &AMQPError) -> bool
    ensures { IsTrue result ↔ (a.now ≡ b.now) }
{
    a == b
}

/// Mechanisms are equal exactly where they are the same.
#[tactic(auto, using(crate::proofs::EqualClasses::same_mechanism))]
pub fn equal_mechanisms(a: &SASLMechanism, b: &SASLMechanism) -> bool
    ensures { IsTrue result ↔ (a.now ≡ b.now) }
{
    a == b
}

/// User infos are equal exactly where their user names and passwords are the same.
pub fn equal_user_infos(a: &AMQPUserInfo, b: &AMQPUserInfo) -> bool
    ensures { IsTrue result ↔ (a.now ≡ b.now) }
{
    a == b
}

/// Credentials are equal exactly where their user names and passwords are the same.
pub fn equal_credentials(a: &Credentials, b: &Credentials) -> bool
    ensures { IsTrue result ↔ (a.now ≡ b.now) }
{
    a == b
}
