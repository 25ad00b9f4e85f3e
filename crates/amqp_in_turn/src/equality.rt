//! The law of equality: two errors are equal exactly where contracts see the same.

ghost use Rattle.std.specs.Prelude.{◌≡◌, ◌↔◌, IsTrue};

use crate::errors::TurnError;

/// Errors are equal exactly where they are the same.
pub fn equal_turn_errors(a: &TurnError, b: &TurnError) -> bool
    ensures { IsTrue result ↔ (a.now ≡ b.now) }
{
    a == b
}
