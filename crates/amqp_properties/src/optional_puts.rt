//! Putting fields that are there or not.
#![tactic(auto, using(amqp_types::proofs::Puts::puts_none), unfolding(amqp_types::specs::PropertyBytes::optional_bytes, amqp_types::specs::PropertyBytes::is_deep_option, amqp_types::specs::PropertyBytes::is_long_option, amqp_types::specs::SlotBytes::form_bytes))]

ghost use Rattle.std.specs.Prelude.{◌≡◌, ◌≤◌, ◌+◌, length, false};
ghost use Rattle.std.specs.Option.{option_map};
ghost use Rattle.amqp_types.specs.Numbers.{bytes1, bytes8};
ghost use Rattle.amqp_types.specs.Slots.{number_item, text_item, entries_item, number_form};
ghost use Rattle.amqp_types.specs.Slots.{short_string_form, table_form};
ghost use Rattle.amqp_types.specs.PropertyBytes.{optional_bytes, is_deep_option, is_long_option};
ghost use Rattle.amqp_types.specs.Writing.{Puts};

use amqp_values::{
    FieldTable, LongLongUInt, ShortShortUInt, ShortString, put_field_table, put_long_long_uint,
    put_short_short_uint, put_short_string,
};

/// Puts a short string, where it is there.
#[inline(always)]
pub fn put_optional_text(buf: &mut [u8], at: usize, option: &Option<ShortString>) -> usize
    requires room { at + length (optional_bytes short_string_form (option_map text_item option.now))
        ≤ length buf.old }
    ensures { Puts buf.old buf.new at
        (optional_bytes short_string_form (option_map text_item option.now)) result }
{
    match option {
        None => at,
        Some(string) => put_short_string(buf, at, string),
    }
}

/// Puts a table, where it is there.
#[inline(always)]
pub fn put_optional_table(buf: &mut [u8], at: usize, option: &Option<FieldTable>) -> usize
    requires shallow { is_deep_option (option_map entries_item option.now) ≡ false }
    requires short { is_long_option (option_map entries_item option.now) ≡ false }
    requires room { at + length (optional_bytes table_form (option_map entries_item option.now))
        ≤ length buf.old }
    ensures { Puts buf.old buf.new at
        (optional_bytes table_form (option_map entries_item option.now)) result }
{
    match option {
        None => at,
        Some(table) => put_field_table(buf, at, table),
    }
}

/// Puts a number of 1 byte, where it is there.
#[inline(always)]
pub fn put_optional_byte(buf: &mut [u8], at: usize, option: &Option<ShortShortUInt>) -> usize
    requires room { at
        + length (optional_bytes (number_form bytes1) (option_map number_item option.now))
        ≤ length buf.old }
    ensures { Puts buf.old buf.new at
        (optional_bytes (number_form bytes1) (option_map number_item option.now)) result }
{
    match option {
        None => at,
        Some(n) => put_short_short_uint(buf, at, n),
    }
}

/// Puts a number of 8 bytes, where it is there.
#[inline(always)]
pub fn put_optional_time(buf: &mut [u8], at: usize, option: &Option<LongLongUInt>) -> usize
    requires room { at
        + length (optional_bytes (number_form bytes8) (option_map number_item option.now))
        ≤ length buf.old }
    ensures { Puts buf.old buf.new at
        (optional_bytes (number_form bytes8) (option_map number_item option.now)) result }
{
    match option {
        None => at,
        Some(n) => put_long_long_uint(buf, at, n),
    }
}
