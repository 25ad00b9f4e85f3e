//! What is written of fields that are there or not.
#![tactic(auto, unfolding(amqp_types::specs::PropertyBytes::optional_bytes, amqp_types::specs::PropertyBytes::is_deep_option, amqp_types::specs::PropertyBytes::is_long_option, amqp_values::specs::Fields::field_bytes, amqp_values::specs::Fields::is_deep_field, amqp_values::specs::Fields::is_long_field))]

ghost use Rattle.std.specs.Option.{option_map};
ghost use Rattle.amqp_types.specs.Numbers.{bytes1, bytes8};
ghost use Rattle.amqp_types.specs.Slots.{number_item, text_item, entries_item, number_form};
ghost use Rattle.amqp_types.specs.Slots.{short_string_form, table_form};
ghost use Rattle.amqp_properties.specs.OptionalFields.{IsOptionalField};

use amqp_values::{Field, FieldTable, LongLongUInt, ShortShortUInt, ShortString};

/// A short string, where it is there.
pub fn field_short_string(option: &Option<ShortString>) -> Field<'_>
    ensures { IsOptionalField result short_string_form (option_map text_item option.now) }
{
    match option {
        None => Field::Nothing,
        Some(string) => Field::ShortString(string),
    }
}

/// A table, where it is there.
pub fn field_table(option: &Option<FieldTable>) -> Field<'_>
    ensures { IsOptionalField result table_form (option_map entries_item option.now) }
{
    match option {
        None => Field::Nothing,
        Some(table) => Field::Table(table),
    }
}

/// A number of 1 byte, where it is there.
pub fn field_short_short_uint(option: &Option<ShortShortUInt>) -> Field<'_>
    ensures { IsOptionalField result (number_form bytes1) (option_map number_item option.now) }
{
    match option {
        None => Field::Nothing,
        Some(n) => Field::ShortShortUInt(*n),
    }
}

/// A number of 8 bytes, where it is there.
pub fn field_long_long_uint(option: &Option<LongLongUInt>) -> Field<'_>
    ensures { IsOptionalField result (number_form bytes8) (option_map number_item option.now) }
{
    match option {
        None => Field::Nothing,
        Some(n) => Field::LongLongUInt(*n),
    }
}
