//! How many bytes fields take that are there or not.
#![tactic(auto, unfolding(amqp_types::specs::PropertyBytes::optional_bytes, amqp_types::specs::PropertyBytes::is_deep_option, amqp_types::specs::PropertyBytes::is_long_option, amqp_types::specs::SlotBytes::form_bytes))]

ghost use Rattle.std.specs.Prelude.{◌≡◌, ◌≤◌, ◌<◌, ◌^◌, length, IfOk};
ghost use Rattle.std.specs.Option.{option_map};
ghost use Rattle.amqp_types.specs.Numbers.{bytes1, bytes8};
ghost use Rattle.amqp_types.specs.Sizes.{measured};
ghost use Rattle.amqp_types.specs.Slots.{number_item, text_item, entries_item, number_form};
ghost use Rattle.amqp_types.specs.Slots.{short_string_form, table_form};
ghost use Rattle.amqp_types.specs.PropertyBytes.{optional_bytes, is_deep_option, is_long_option};

use amqp_values::{
    FieldTable, GenError, LongLongUInt, ShortShortUInt, ShortString, size_field_table,
};

/// The size of a short string, where it is there.
pub fn size_optional_text(option: &Option<ShortString>) -> u64
    ensures size { result
        ≡ length (optional_bytes short_string_form (option_map text_item option.now)) }
    ensures bound { result ≤ 256 }
{
    match option {
        None => 0,
        Some(string) => 1 + string.len() as u64,
    }
}

/// The size of a table, where it is there.
pub fn size_optional_table(option: &Option<FieldTable>) -> Result<u64, GenError>
    ensures size { result ≡ measured (is_deep_option (option_map entries_item option.now))
        (is_long_option (option_map entries_item option.now))
        (optional_bytes table_form (option_map entries_item option.now)) }
    ensures bound { IfOk result (λ n. n < 2 ^ 33) }
{
    match option {
        None => Ok(0),
        Some(table) => size_field_table(table),
    }
}

/// The size of a number of 1 byte, where it is there.
pub fn size_optional_byte(option: &Option<ShortShortUInt>) -> u64
    ensures size { result
        ≡ length (optional_bytes (number_form bytes1) (option_map number_item option.now)) }
    ensures bound { result ≤ 1 }
{
    match option {
        None => 0,
        Some(_) => 1,
    }
}

/// The size of a number of 8 bytes, where it is there.
pub fn size_optional_time(option: &Option<LongLongUInt>) -> u64
    ensures size { result
        ≡ length (optional_bytes (number_form bytes8) (option_map number_item option.now)) }
    ensures bound { result ≤ 8 }
{
    match option {
        None => 0,
        Some(_) => 8,
    }
}
