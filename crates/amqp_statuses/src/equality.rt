//! Laws of equality: two statuses are equal exactly where contracts see the same.

ghost use Rattle.std.specs.Prelude.{◌≡◌, ◌↔◌, IsTrue};

use crate::status::Status;

/// Two statuses are equal exactly where they are the same.
pub fn equal_statuses(a: &Status, b: &Status) -> bool
    ensures { IsTrue result ↔ (a.now ≡ b.now) }
{
    a == b
}
