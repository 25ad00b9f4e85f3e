//! Laws of equality: two values are equal exactly where contracts see the same.

ghost use Rattle.std.specs.Prelude.{◌≡◌, ◌↔◌, IsTrue};

use crate::byte_array::ByteArray;
use crate::decimal_value::DecimalValue;
use crate::errors::{GenError, NoMemory, ParserError};
use crate::flags::AMQPFlags;
use crate::long_string::LongString;
use crate::make_error::MakeError;
use crate::profile::Profile;
use crate::short_string::ShortString;
use crate::tag::FieldTag;

/// Short strings are equal exactly where their texts are the same.
pub fn equal_short_strings(a: &ShortString, b: &ShortString) -> bool
    ensures { IsTrue result ↔ (a.now ≡ b.now) }
{
    a == b
}

/// Long strings are equal exactly where their bytes are the same.
pub fn equal_long_strings(a: &LongString, b: &LongString) -> bool
    ensures { IsTrue result ↔ (a.now ≡ b.now) }
{
    a == b
}

/// Byte arrays are equal exactly where their bytes are the same.
pub fn equal_byte_arrays(a: &ByteArray, b: &ByteArray) -> bool
    ensures { IsTrue result ↔ (a.now ≡ b.now) }
{
    a == b
}

/// Decimal values are equal exactly where their scales and their digits are the same.
pub fn equal_decimal_values(a: &DecimalValue, b: &DecimalValue) -> bool
    ensures { IsTrue result ↔ (a.now ≡ b.now) }
{
    a == b
}

/// Flags are equal exactly where they are as many and the same.
pub fn equal_flags(a: &AMQPFlags, b: &AMQPFlags) -> bool
    ensures { IsTrue result ↔ (a.now ≡ b.now) }
{
    a == b
}

/// Tags are equal exactly where they are the same.
pub fn equal_tags(a: &FieldTag, b: &FieldTag) -> bool
    ensures { IsTrue result ↔ (a.now ≡ b.now) }
{
    a == b
}

/// Profiles are equal exactly where they are the same.
pub fn equal_profiles(a: &Profile, b: &Profile) -> bool
    ensures { IsTrue result ↔ (a.now ≡ b.now) }
{
    a == b
}

/// Errors of decoding are equal exactly where they are the same.
pub fn equal_parser_errors(a: &ParserError, b: &ParserError) -> bool
    ensures { IsTrue result ↔ (a.now ≡ b.now) }
{
    a == b
}

/// Errors of encoding are equal exactly where they are the same.
pub fn equal_gen_errors(a: &GenError, b: &GenError) -> bool
    ensures { IsTrue result ↔ (a.now ≡ b.now) }
{
    a == b
}

/// Errors of making a value are equal exactly where they are the same.
pub fn equal_make_errors(a: &MakeError, b: &MakeError) -> bool
    ensures { IsTrue result ↔ (a.now ≡ b.now) }
{
    a == b
}

/// Out of memory is equal to itself.
pub fn equal_no_memory(a: &NoMemory, b: &NoMemory) -> bool
    ensures { IsTrue result ↔ (a.now ≡ b.now) }
{
    a == b
}
