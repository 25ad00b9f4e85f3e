//! Laws of equality: two errors are equal exactly where contracts see the same.

ghost use Rattle.std.specs.Prelude.{◌≡◌, ◌↔◌, IsTrue};

use crate::errors::{TextError, UndumpError};

/// Errors of reading a line are equal exactly where they are the same.
pub fn equal_text_errors(a: &TextError, b: &TextError) -> bool
    ensures { IsTrue result ↔ (a.now ≡ b.now) }
{
    a == b
}

/// Errors of reading a stream of lines are equal exactly where they are the same.
pub fn equal_undump_errors(a: &UndumpError, b: &UndumpError) -> bool
    ensures { IsTrue result ↔ (a.now ≡ b.now) }
{
    a == b
}
