//! Whether two values are the same.

ghost use Rattle.std.specs.Prelude.{◌≡◌};
ghost use Rattle.std.specs.Cmp.{on_per};
ghost use Rattle.amqp_types.specs.Values.{values_of, entries_of};
ghost use Rattle.amqp_values.specs.Views.{value_of};
ghost use Rattle.amqp_values.specs.Sameness.{same_value, same_items, same_entries, same_value_laws};
ghost use Rattle.amqp_values.specs.Sameness.{same_items_laws, same_entries_laws};

use crate::value::{AMQPValue, FieldArray, FieldTable};

#[cycle(same)]
fn is_same_value(a: &AMQPValue, b: &AMQPValue) -> bool
    ensures { result ≡ same_value (value_of a.now) (value_of b.now) }
{
    match (a, b) {
        (AMQPValue::Boolean(a), AMQPValue::Boolean(b)) => a == b,
        (AMQPValue::ShortShortInt(a), AMQPValue::ShortShortInt(b)) => a == b,
        (AMQPValue::ShortShortUInt(a), AMQPValue::ShortShortUInt(b)) => a == b,
        (AMQPValue::ShortInt(a), AMQPValue::ShortInt(b)) => a == b,
        (AMQPValue::ShortUInt(a), AMQPValue::ShortUInt(b)) => a == b,
        (AMQPValue::LongInt(a), AMQPValue::LongInt(b)) => a == b,
        (AMQPValue::LongUInt(a), AMQPValue::LongUInt(b)) => a == b,
        (AMQPValue::LongLongInt(a), AMQPValue::LongLongInt(b)) => a == b,
        (AMQPValue::Float(a), AMQPValue::Float(b)) => a == b,
        (AMQPValue::Double(a), AMQPValue::Double(b)) => a == b,
        (AMQPValue::DecimalValue(a), AMQPValue::DecimalValue(b)) => {
            a.scale == b.scale && a.value == b.value
        }
        (AMQPValue::LongString(a), AMQPValue::LongString(b)) => a == b,
        (AMQPValue::FieldArray(a), AMQPValue::FieldArray(b)) => is_same_array(a, b),
        (AMQPValue::Timestamp(a), AMQPValue::Timestamp(b)) => a == b,
        (AMQPValue::FieldTable(a), AMQPValue::FieldTable(b)) => is_same_table(a, b),
        (AMQPValue::ByteArray(a), AMQPValue::ByteArray(b)) => a == b,
        (AMQPValue::Void, AMQPValue::Void) => true,
        _ => false,
    }
}

#[cycle(same)]
fn is_same_array(a: &FieldArray, b: &FieldArray) -> bool
    ensures { result ≡ same_items (values_of a.now) (values_of b.now) }
{
    let mine = a.as_slice();
    let theirs = b.as_slice();
    if mine.len() != theirs.len() {
        return false;
    }
    for i in 0..mine.len() {
        if !is_same_value(&mine[i], &theirs[i]) {
            return false;
        }
    }
    true
}

#[cycle(same)]
fn is_same_table(a: &FieldTable, b: &FieldTable) -> bool
    ensures { result ≡ same_entries (entries_of a.now) (entries_of b.now) }
{
    let mut theirs = b.iter();
    for (key, value) in a.iter() {
        match theirs.next() {
            None => return false,
            Some((other_key, other_value)) => {
                if key != other_key || !is_same_value(value, other_value) {
                    return false;
                }
            }
        }
    }
    theirs.next().is_none()
}

impl PartialEq for AMQPValue {
    ghost eq = { λ a b. same_value (value_of a) (value_of b) };

    ghost laws = { on_per value_of same_value_laws };

    fn eq(&self, other: &AMQPValue) -> bool {
        is_same_value(self, other)
    }
}

impl PartialEq for FieldArray {
    ghost eq = { λ a b. same_items (values_of a) (values_of b) };

    ghost laws = { on_per values_of same_items_laws };

    fn eq(&self, other: &FieldArray) -> bool {
        is_same_array(self, other)
    }
}

impl PartialEq for FieldTable {
    ghost eq = { λ a b. same_entries (entries_of a) (entries_of b) };

    ghost laws = { on_per entries_of same_entries_laws };

    fn eq(&self, other: &FieldTable) -> bool {
        is_same_table(self, other)
    }
}
