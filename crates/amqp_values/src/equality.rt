//! Laws of equality: two values are equal exactly where contracts see the same.

ghost use Rattle.std.specs.Prelude.{◌≡◌, ◌↔◌, IsTrue};
ghost use Rattle.amqp_values.specs.Views.{value_of};

use crate::value::{AMQPValue, FieldArray, FieldTable};

/// Values are equal exactly where they are the same, at every depth.
pub fn equal_values(a: &AMQPValue, b: &AMQPValue) -> bool
    ensures { IsTrue result ↔ (value_of a.now ≡ value_of b.now) }
{
    a == b
}

/// Arrays are equal exactly where they have the same values in the same order.
pub fn equal_field_arrays(a: &FieldArray, b: &FieldArray) -> bool
    ensures { IsTrue result ↔ (a.now ≡ b.now) }
{
    a == b
}

/// Tables are equal exactly where they have the same keys with the same values.
pub fn equal_field_tables(a: &FieldTable, b: &FieldTable) -> bool
    ensures { IsTrue result ↔ (a.now ≡ b.now) }
{
    a == b
}
