//! What values, arrays, tables and fields hold, whatever a program does: the premise of the laws that read canonical
//! bytes back.

ghost use Rattle.amqp_types.specs.Values.{entries_of, values_of};
ghost use Rattle.amqp_types.specs.Settling.{IsRising};
ghost use Rattle.amqp_types.specs.ValueLaws.{AllEntriesHeld, AllHeld, IsHeld};
ghost use Rattle.amqp_values.specs.Fields.{AreFieldsHeld, IsFieldHeld};
ghost use Rattle.amqp_values.specs.Views.{value_of};

use crate::fields::Field;
use crate::value::{AMQPValue, FieldArray, FieldTable};
use amqp_types::{long_held, long_long_held, octet_held, short_held, text_held};

/// A value is held: its numbers fit their bytes, its keys are short strings, its tables have ascending keys.
#[cycle(held)]
pub fn value_held(value: &AMQPValue)
    ensures { IsHeld (value_of value.now) }
{
    match value {
        AMQPValue::Boolean(_) => {}
        AMQPValue::ShortShortInt(n) => {
            let _n = *n;
        }
        AMQPValue::ShortShortUInt(n) => {
            let _n = *n;
        }
        AMQPValue::ShortInt(n) => {
            let _n = *n;
        }
        AMQPValue::ShortUInt(n) => {
            let _n = *n;
        }
        AMQPValue::LongInt(n) => {
            let _n = *n;
        }
        AMQPValue::LongUInt(n) => {
            let _n = *n;
        }
        AMQPValue::LongLongInt(n) => {
            let _n = *n;
        }
        AMQPValue::Float(n) => {
            let _n = *n;
        }
        AMQPValue::Double(n) => {
            let _n = *n;
        }
        AMQPValue::DecimalValue(decimal) => {
            octet_held(decimal.scale);
            long_held(decimal.value);
        }
        AMQPValue::LongString(_) => {}
        AMQPValue::FieldArray(array) => array_held(array),
        AMQPValue::Timestamp(n) => {
            let _n = *n;
        }
        AMQPValue::FieldTable(table) => table_held(table),
        AMQPValue::ByteArray(_) => {}
        AMQPValue::Void => {}
    }
}

/// Each value of an array is held.
#[cycle(held)]
pub fn array_held(array: &FieldArray)
    ensures { AllHeld (values_of array.now) }
{
    for value in array.as_slice() {
        value_held(value);
    }
}

/// The keys of a table ascend, and each entry is held.
#[cycle(held)]
pub fn table_held(table: &FieldTable)
    ensures rising { IsRising table.now }
    ensures held { AllEntriesHeld (entries_of table.now) }
{
    for (key, value) in table.iter() {
        text_held(key);
        value_held(value);
    }
}

/// A field is held.
fn field_held(field: &Field<'_>)
    ensures { IsFieldHeld field.now }
{
    match *field {
        Field::ShortShortUInt(n) => octet_held(n),
        Field::ShortUInt(n) => short_held(n),
        Field::LongUInt(n) => long_held(n),
        Field::LongLongUInt(n) => long_long_held(n),
        Field::ShortString(text) => text_held(text),
        Field::Table(table) => table_held(table),
        Field::Nothing | Field::Flags(_) | Field::LongString(_) => {}
    }
}

/// Each field is held.
pub fn fields_held(fields: &[Field<'_>])
    ensures { AreFieldsHeld fields.now }
{
    match fields {
        [] => {}
        [first, rest @ ..] => {
            field_held(first);
            fields_held(rest);
        }
    }
}
