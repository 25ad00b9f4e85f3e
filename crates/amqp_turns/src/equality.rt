//! Laws of equality: two values are equal exactly where contracts see the same.

ghost use Rattle.std.specs.Prelude.{◌≡◌, ◌↔◌, IsTrue};

use crate::fault::ContentFault;
use crate::mark::Mark;
use crate::progress::Progress;

/// Faults are equal exactly where they are the same.
pub fn equal_content_faults(a: &ContentFault, b: &ContentFault) -> bool
    ensures { IsTrue result ↔ (a.now ≡ b.now) }
{
    a == b
}

/// Marks are equal exactly where they are the same, with the same numbers.
pub fn equal_marks(a: &Mark, b: &Mark) -> bool
    ensures { IsTrue result ↔ (a.now ≡ b.now) }
{
    a == b
}

/// Messages have come equally far exactly where it is the same of both, with the same numbers.
pub fn equal_progress(a: &Progress, b: &Progress) -> bool
    ensures { IsTrue result ↔ (a.now ≡ b.now) }
{
    a == b
}
