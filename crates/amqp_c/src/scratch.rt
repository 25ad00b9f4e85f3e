//! The scratch that callers may pass, in which the entries of large tables are sorted.

ghost use Rattle.std.specs.Prelude.{◌≡◌, ◌≤◌, ◌/◌, ℕ, List, length};
ghost use Rattle.amqp_types.specs.Judging.{IsBytes};
ghost use Rattle.amqp_canonical.specs.Marks.{AreEntries, entries_in};

/// How many marks are enough for each table in so many bytes, with the tables inside it: an entry has the length of its
/// key and a tag, so two bytes at least.
#[unsafe(no_mangle)]
pub extern "C" fn feksroum_scratch(bytes: usize) -> usize
    ensures half { result ≡ bytes / 2 }
    ensures enough { (room : ℕ) (content : List ℕ) → IsBytes content
        → length content ≤ bytes → AreEntries room content
        → length (entries_in room content) ≤ result }
{
    bytes / 2
}
