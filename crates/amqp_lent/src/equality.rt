//! The laws of equality: two errors, frames, values, arrays or tables are equal exactly where contracts see the same.

ghost use Rattle.std.specs.Prelude.{◌≡◌, ◌↔◌, IsTrue};
ghost use Rattle.amqp_lent.specs.Frames.{parts_of};
ghost use Rattle.amqp_lent.specs.Views.{value_of};

use crate::errors::LentError;
use crate::frame::LentFrame;
use crate::value::{LentArray, LentTable, LentValue};

/// Errors are equal exactly where they are the same.
pub fn equal_lent_errors(a: &LentError, b: &LentError) -> bool
    ensures { IsTrue result ↔ (a.now ≡ b.now) }
{
    a == b
}

/// Borrowed frames are equal exactly where they are of one kind, with the same numbers. Their slices are compared as
/// bytes, wherever these lie.
#[tactic(auto, using(crate::proofs::EqualFrames::same_parts))]
pub fn equal_lent_frames(a: LentFrame<'_>, b: LentFrame<'_>) -> bool
    ensures { IsTrue result ↔ parts_of a.entry ≡ parts_of b.entry }
{
    a == b
}

/// Borrowed values are equal exactly where they stand for the same value, at every depth.
#[tactic(auto, using(crate::proofs::Same::value_decided))]
pub fn equal_lent_values(a: &LentValue<'_>, b: &LentValue<'_>) -> bool
    ensures { IsTrue result ↔ (value_of a.now ≡ value_of b.now) }
{
    a == b
}

/// Borrowed arrays are equal exactly where they have the same values in the same order.
#[tactic(auto, using(crate::proofs::Same::items_decided))]
pub fn equal_lent_arrays(a: &LentArray<'_>, b: &LentArray<'_>) -> bool
    ensures { IsTrue result ↔ (a.now ≡ b.now) }
{
    a == b
}

/// Borrowed tables are equal exactly where they have the same keys with the same values: the order in which the entries
/// stand does not count, nor do those that a later one with the same key settles.
#[tactic(auto, using(crate::proofs::Same::entries_decided))]
pub fn equal_lent_tables(a: &LentTable<'_>, b: &LentTable<'_>) -> bool
    ensures { IsTrue result ↔ (a.now ≡ b.now) }
{
    a == b
}
