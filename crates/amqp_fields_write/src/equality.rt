//! When refusals and errors of writing are equal.

ghost use Rattle.std.specs.Prelude.{◌≡◌, ◌↔◌, IsTrue};

use crate::refusals::{WriteError, WriteRefusal};

/// Two refusals are equal exactly where they are the same.
pub fn equal_write_refusals(a: &WriteRefusal, b: &WriteRefusal) -> bool
    ensures { IsTrue result ↔ (a.now ≡ b.now) }
{
    a == b
}

/// Two errors of writing are equal exactly where they are the same.
pub fn equal_write_errors(a: &WriteError, b: &WriteError) -> bool
    ensures { IsTrue result ↔ (a.now ≡ b.now) }
{
    a == b
}
