//! Fields that are written one after another: measured, put into a slice, or appended to a vector.

ghost use Rattle.std.specs.Prelude.{◌≡◌, ◌≤◌, ◌<◌, ◌+◌, ◌*◌, ◌^◌, ◌++◌, ◌||◌, ℕ, List};
ghost use Rattle.std.specs.Prelude.{Bool, Ok, drop, false, length, IfOk, IsOk};
ghost use Rattle.amqp_types.specs.Sizes.{measured};
ghost use Rattle.amqp_types.specs.Writing.{Puts, Appends};
ghost use Rattle.amqp_values.specs.Fields.{field_bytes, is_deep_field, is_long_field, fields_bytes};
ghost use Rattle.amqp_values.specs.Fields.{any_deep_field, any_long_field, fields_size};
ghost use Rattle.amqp_values.specs.Fields.{fields_size_after};

use crate::generation::put_field_table;
use crate::measuring::size_field_table;
use crate::value::FieldTable;
use amqp_types::{
    GenError, LongLongUInt, LongString, LongUInt, ShortShortUInt, ShortString, ShortUInt, grow,
    put_bytes, put_long_long_uint, put_long_string, put_long_uint, put_short_short_uint,
    put_short_string, put_short_uint, size_long_string, size_short_string,
};

/// A field that is written.
#[derive(Clone, Copy)]
pub enum Field<'a> {
    /// No bytes.
    Nothing,

    /// A number of 1 byte.
    ShortShortUInt(ShortShortUInt),

    /// A number of 2 bytes.
    ShortUInt(ShortUInt),

    /// A number of 4 bytes.
    LongUInt(LongUInt),

    /// A number of 8 bytes.
    LongLongUInt(LongLongUInt),

    /// A byte of flags.
    Flags(u8),

    /// A short string.
    ShortString(&'a ShortString),

    /// A long string.
    LongString(&'a LongString),

    /// A table.
    Table(&'a FieldTable),
}

/// The size of a field.
#[inline(always)]
#[tactic(auto, unfolding(crate::specs::Fields::field_bytes, crate::specs::Fields::is_deep_field, crate::specs::Fields::is_long_field, amqp_types::specs::SlotBytes::form_bytes))]
fn size_field(field: &Field<'_>) -> Result<u64, GenError>
    ensures size { result
        ≡ measured (is_deep_field field.now) (is_long_field field.now) (field_bytes field.now) }
    ensures bound { IfOk result (λ n. n < 2 ^ 33) }
{
    match *field {
        Field::Nothing => Ok(0),
        Field::ShortShortUInt(_) => Ok(1),
        Field::ShortUInt(_) => Ok(2),
        Field::LongUInt(_) => Ok(4),
        Field::LongLongUInt(_) => Ok(8),
        Field::Flags(_) => Ok(1),
        Field::ShortString(string) => size_short_string(string),
        Field::LongString(string) => size_long_string(string.as_bytes()),
        Field::Table(table) => size_field_table(table),
    }
}

/// The size of fields with so many bytes before them, where a field before them may have been too long. Apart, since
/// few fields are refused.
#[inline(never)]
fn size_after(fields: &[Field<'_>], before: u64, long: bool) -> Result<u64, GenError>
    requires few { before + length fields.now * 2 ^ 33 < 2 ^ 63 }
    ensures size { result ≡ fields_size_after before long fields.now }
    ensures bound { IfOk result (λ n. n ≤ before + length fields.now * 2 ^ 33) }
{
    match fields {
        [] => {
            if long {
                return Err(GenError::TooLong);
            }
            Ok(before)
        }
        [first, rest @ ..] => match size_field(first) {
            Ok(n) => size_after(rest, before + n, long),
            Err(error) => match error {
                GenError::TooLong => size_after(rest, before, true),
                _ => Err(error),
            },
        },
    }
}

/// The size of fields with so many bytes before them; more than any have where one of them is refused. A plain number,
/// so that going from field to field is a loop.
fn sum_sizes(fields: &[Field<'_>], before: u64) -> u64
    requires few { before + length fields.now * 2 ^ 33 < 2 ^ 63 }
    ensures size { result < 2 ^ 63 → Ok result ≡ fields_size_after before false fields.now }
    ensures bound { result < 2 ^ 63 → result ≤ before + length fields.now * 2 ^ 33 }
{
    match fields {
        [] => before,
        [first, rest @ ..] => match size_field(first) {
            Ok(n) => sum_sizes(rest, before + n),
            Err(_) => u64::MAX,
        },
    }
}

/// The size of fields, one after another: too deep where one of them is, else too long where one of them is.
#[tactic(auto, unfolding(crate::specs::Fields::fields_size))]
pub fn size_fields(fields: &[Field<'_>]) -> Result<u64, GenError>
    requires few { length fields.now ≤ 64 }
    ensures size { result ≡ fields_size fields.now }
    ensures bound { IfOk result (λ n. n ≤ length fields.now * 2 ^ 33) }
{
    let size = sum_sizes(fields, 0);
    if size < 1 << 63 {
        return Ok(size);
    }
    size_after(fields, 0, false)
}

/// Puts a field at a place of a slice, and returns the place after it.
#[tactic(auto, using(amqp_types::proofs::Puts::puts_none), unfolding(crate::specs::Fields::field_bytes, crate::specs::Fields::is_deep_field, crate::specs::Fields::is_long_field, amqp_types::specs::SlotBytes::form_bytes))]
fn put_field(buf: &mut [u8], at: usize, field: &Field<'_>) -> usize
    requires shallow { is_deep_field field.now ≡ false }
    requires short { is_long_field field.now ≡ false }
    requires room { at + length (field_bytes field.now) ≤ length buf.old }
    ensures { Puts buf.old buf.new at (field_bytes field.now) result }
{
    match *field {
        Field::Nothing => at,
        Field::ShortShortUInt(n) => put_short_short_uint(buf, at, &n),
        Field::ShortUInt(n) => put_short_uint(buf, at, &n),
        Field::LongUInt(n) => put_long_uint(buf, at, &n),
        Field::LongLongUInt(n) => put_long_long_uint(buf, at, &n),
        Field::Flags(byte) => put_bytes(buf, at, &[byte]),
        Field::ShortString(string) => put_short_string(buf, at, string),
        Field::LongString(string) => put_long_string(buf, at, string.as_bytes()),
        Field::Table(table) => put_field_table(buf, at, table),
    }
}

/// Puts fields one after another.
#[tactic(auto, unfolding(crate::specs::Fields::fields_bytes, crate::specs::Fields::any_deep_field, crate::specs::Fields::any_long_field))]
fn put_each(buf: &mut [u8], at: usize, fields: &[Field<'_>]) -> usize
    requires shallow { any_deep_field fields.now ≡ false }
    requires short { any_long_field fields.now ≡ false }
    requires room { at + length (fields_bytes fields.now) ≤ length buf.old }
    ensures { Puts buf.old buf.new at (fields_bytes fields.now) result }
{
    match fields {
        [] => at,
        [first, rest @ ..] => match first {
            Field::Nothing => put_each(buf, at, rest),
            _ => {
                let place = put_field(buf, at, first);
                put_each(buf, place, rest)
            }
        },
    }
}

/// Puts fields one after another at a place of a slice, and returns the place after them.
#[tactic(auto, unfolding(crate::specs::Fields::fields_size))]
pub fn put_fields(buf: &mut [u8], at: usize, fields: &[Field<'_>]) -> usize
    requires fits { IsOk (fields_size fields.now) }
    requires room { at + length (fields_bytes fields.now) ≤ length buf.old }
    ensures { Puts buf.old buf.new at (fields_bytes fields.now) result }
{
    put_each(buf, at, fields)
}

/// Appends fields to a vector, one after another.
#[tactic(auto, unfolding(crate::specs::Fields::fields_size))]
pub fn gen_fields(out: &mut Vec<u8>, fields: &[Field<'_>]) -> Result<(), GenError>
    requires few { length fields.now ≤ 64 }
    ensures { Appends out.old.items out.new.items
        (fields_size fields.now) (fields_bytes fields.now) result }
{
    let size = size_fields(fields)?;
    let at = grow(out, size)?;
    put_fields(out, at, fields);
    Ok(())
}

/// The size of the fields of a method with its id: all but the first, which is the id of its class.
pub fn size_method_fields(fields: &[Field<'_>]) -> Result<u64, GenError>
    requires few { length fields.now ≤ 64 }
    ensures size { result ≡ fields_size (drop 1 fields.now) }
    ensures bound { IfOk result (λ n. n ≤ 64 * 2 ^ 33) }
{
    match fields {
        [] => size_fields(fields),
        [_, rest @ ..] => size_fields(rest),
    }
}

/// Puts the fields of a method with its id at a place of a slice, and returns the place after them.
pub fn put_method_fields(buf: &mut [u8], at: usize, fields: &[Field<'_>]) -> usize
    requires fits { IsOk (fields_size (drop 1 fields.now)) }
    requires room { at + length (fields_bytes (drop 1 fields.now)) ≤ length buf.old }
    ensures { Puts buf.old buf.new at (fields_bytes (drop 1 fields.now)) result }
{
    match fields {
        [] => put_fields(buf, at, fields),
        [_, rest @ ..] => put_fields(buf, at, rest),
    }
}

/// Appends the fields of a method with its id to a vector.
pub fn gen_method_fields(out: &mut Vec<u8>, fields: &[Field<'_>]) -> Result<(), GenError>
    requires few { length fields.now ≤ 64 }
    ensures { Appends out.old.items out.new.items (fields_size (drop 1 fields.now))
        (fields_bytes (drop 1 fields.now)) result }
{
    match fields {
        [] => gen_fields(out, fields),
        [_, rest @ ..] => gen_fields(out, rest),
    }
}
