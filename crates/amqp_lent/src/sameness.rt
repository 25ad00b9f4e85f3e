//! Whether two borrowed values, arrays or tables stand for the same. No memory is taken: the entries of a table are
//! found by their keys, in quadratic time.

ghost use Rattle.std.specs.Prelude.{◌≡◌, ◌↔◌, IsTrue};
ghost use Rattle.amqp_types.specs.Settling.{settled};
ghost use Rattle.amqp_canonical.specs.Marks.{AreEntries, entries_in};
ghost use Rattle.amqp_lent.specs.Views.{value_of};

use crate::table::entry_after;
use crate::value::{LentArray, LentTable, LentValue};

/// Whether both values are of one kind and have the same content.
#[cycle(same)]
pub(crate) fn is_same_value(a: &LentValue<'_>, b: &LentValue<'_>) -> bool
    ensures { IsTrue result ↔ (value_of a.now ≡ value_of b.now) }
{
    match (a, b) {
        (LentValue::Boolean(a), LentValue::Boolean(b)) => a == b,
        (LentValue::ShortShortInt(a), LentValue::ShortShortInt(b)) => a == b,
        (LentValue::ShortShortUInt(a), LentValue::ShortShortUInt(b)) => a == b,
        (LentValue::ShortInt(a), LentValue::ShortInt(b)) => a == b,
        (LentValue::ShortUInt(a), LentValue::ShortUInt(b)) => a == b,
        (LentValue::LongInt(a), LentValue::LongInt(b)) => a == b,
        (LentValue::LongUInt(a), LentValue::LongUInt(b)) => a == b,
        (LentValue::LongLongInt(a), LentValue::LongLongInt(b)) => a == b,
        (LentValue::Float(a), LentValue::Float(b)) => a == b,
        (LentValue::Double(a), LentValue::Double(b)) => a == b,
        (LentValue::DecimalValue(a), LentValue::DecimalValue(b)) => {
            a.scale == b.scale && a.value == b.value
        }
        (LentValue::LongString(a), LentValue::LongString(b)) => a == b,
        (LentValue::FieldArray(a), LentValue::FieldArray(b)) => is_same_array(a, b),
        (LentValue::Timestamp(a), LentValue::Timestamp(b)) => a == b,
        (LentValue::FieldTable(a), LentValue::FieldTable(b)) => is_same_table(a, b),
        (LentValue::ByteArray(a), LentValue::ByteArray(b)) => a == b,
        (LentValue::Void, LentValue::Void) => true,
        _ => false,
    }
}

/// Whether both arrays have the same values in the same order.
#[cycle(same)]
pub(crate) fn is_same_array(a: &LentArray<'_>, b: &LentArray<'_>) -> bool
    ensures { IsTrue result ↔ (a.now ≡ b.now) }
{
    let mut theirs = b.items();
    for item in a.items() {
        match theirs.next() {
            None => return false,
            Some(other) => {
                if !is_same_value(&item, &other) {
                    return false;
                }
            }
        }
    }
    theirs.next().is_none()
}

/// Whether both tables have the same keys with the same values.
#[cycle(same)]
pub(crate) fn is_same_table(a: &LentTable<'_>, b: &LentTable<'_>) -> bool
    ensures { IsTrue result ↔ (a.now ≡ b.now) }
{
    are_same_entries(a.content, a.depth_left, b.content, b.depth_left)
}

/// Whether the entries that fill two tables make the same table, in whatever order they stand.
#[cycle(same)]
fn are_same_entries(a: &[u8], a_room: usize, b: &[u8], b_room: usize) -> bool
    requires read { AreEntries a_room a.now }
    requires other_read { AreEntries b_room b.now }
    ensures { IsTrue result
        ↔ (settled (entries_in a_room a.now) ≡ settled (entries_in b_room b.now)) }
{
    let mut last: Option<&[u8]> = None;
    while let Some((key, value)) = entry_after(a, a_room, last) {
        match entry_after(b, b_room, last) {
            None => return false,
            Some((other_key, other)) => {
                if key != other_key || !is_same_value(&value, &other) {
                    return false;
                }
            }
        }
        last = Some(key.as_bytes());
    }
    entry_after(b, b_room, last).is_none()
}

impl<'a> PartialEq for LentValue<'a> {
    ghost use Rattle.std.specs.Cmp.{on_per, partial_equiv_from_equiv};
    ghost use Rattle.amqp_lent.specs.Sameness.{same_value, same_value_laws};

    ghost eq = { λ a b. same_value (value_of a) (value_of b) };

    ghost laws = { on_per value_of (partial_equiv_from_equiv same_value_laws) };

    fn eq(&self, other: &LentValue<'a>) -> bool {
        is_same_value(self, other)
    }
}

impl<'a> Eq for LentValue<'a> {
    ghost use Rattle.std.specs.Cmp.{on_equiv};
    ghost use Rattle.amqp_lent.specs.Sameness.{same_value_laws};

    ghost laws = { on_equiv value_of same_value_laws };
}

impl<'a> PartialEq for LentArray<'a> {
    ghost use Rattle.std.specs.Cmp.{partial_equiv_from_equiv};
    ghost use Rattle.amqp_lent.specs.Sameness.{same_items, same_items_laws};

    ghost eq = { same_items };

    ghost laws = { partial_equiv_from_equiv same_items_laws };

    fn eq(&self, other: &LentArray<'a>) -> bool {
        is_same_array(self, other)
    }
}

impl<'a> Eq for LentArray<'a> {
    ghost use Rattle.amqp_lent.specs.Sameness.{same_items_laws};

    ghost laws = { same_items_laws };
}

impl<'a> PartialEq for LentTable<'a> {
    ghost use Rattle.std.specs.Cmp.{partial_equiv_from_equiv};
    ghost use Rattle.amqp_lent.specs.Sameness.{same_entries, same_entries_laws};

    ghost eq = { same_entries };

    ghost laws = { partial_equiv_from_equiv same_entries_laws };

    fn eq(&self, other: &LentTable<'a>) -> bool {
        is_same_table(self, other)
    }
}

impl<'a> Eq for LentTable<'a> {
    ghost use Rattle.amqp_lent.specs.Sameness.{same_entries_laws};

    ghost laws = { same_entries_laws };
}
