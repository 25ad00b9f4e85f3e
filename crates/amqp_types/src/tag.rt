//! The kinds of values that tables and arrays hold, and the bytes of their tags.

ghost use Rattle.std.specs.Prelude.{◌≡◌};
ghost use Rattle.amqp_types.specs.Tags.{tag_at, tag_byte};

use crate::tag_bytes::{
    TAG_BOOLEAN, TAG_BYTE_ARRAY, TAG_DECIMAL_VALUE, TAG_DOUBLE, TAG_FIELD_ARRAY, TAG_FIELD_TABLE,
    TAG_FLOAT, TAG_LONG_INT, TAG_LONG_LONG_INT, TAG_LONG_LONG_INT_READ, TAG_LONG_STRING,
    TAG_LONG_UINT, TAG_SHORT_INT, TAG_SHORT_INT_READ, TAG_SHORT_SHORT_INT, TAG_SHORT_SHORT_UINT,
    TAG_SHORT_UINT, TAG_TIMESTAMP, TAG_VOID,
};

/// The kinds of values that tables and arrays hold, one for each tag.
#[derive(Clone, Copy, Debug, PartialEq, Eq)]
pub enum FieldTag {
    /// A truth value, `t`.
    Boolean,

    /// A signed number of 1 byte, `b`.
    ShortShortInt,

    /// An unsigned number of 1 byte, `B`.
    ShortShortUInt,

    /// A signed number of 2 bytes, `s`.
    ShortInt,

    /// An unsigned number of 2 bytes, `u`.
    ShortUInt,

    /// A signed number of 4 bytes, `I`.
    LongInt,

    /// An unsigned number of 4 bytes, `i`.
    LongUInt,

    /// A signed number of 8 bytes, `l`.
    LongLongInt,

    /// A number of 4 bytes with a fraction, `f`.
    Float,

    /// A number of 8 bytes with a fraction, `d`.
    Double,

    /// A scale and an unsigned number, `D`.
    DecimalValue,

    /// A long string, `S`.
    LongString,

    /// An array, `A`.
    FieldArray,

    /// A time, `T`.
    Timestamp,

    /// A table, `F`.
    FieldTable,

    /// A byte array, `x`.
    ByteArray,

    /// Nothing, `V`.
    Void,
}

impl FieldTag {
    /// The kind that a tag byte stands for. The bytes `U` and `L` stand for `s` and `l`.
    pub fn from_byte(byte: u8) -> Option<FieldTag>
        ensures { result ≡ tag_at byte }
    {
        match byte {
            TAG_BOOLEAN => Some(FieldTag::Boolean),
            TAG_SHORT_SHORT_INT => Some(FieldTag::ShortShortInt),
            TAG_SHORT_SHORT_UINT => Some(FieldTag::ShortShortUInt),
            TAG_SHORT_INT | TAG_SHORT_INT_READ => Some(FieldTag::ShortInt),
            TAG_SHORT_UINT => Some(FieldTag::ShortUInt),
            TAG_LONG_INT => Some(FieldTag::LongInt),
            TAG_LONG_UINT => Some(FieldTag::LongUInt),
            TAG_LONG_LONG_INT | TAG_LONG_LONG_INT_READ => Some(FieldTag::LongLongInt),
            TAG_FLOAT => Some(FieldTag::Float),
            TAG_DOUBLE => Some(FieldTag::Double),
            TAG_DECIMAL_VALUE => Some(FieldTag::DecimalValue),
            TAG_LONG_STRING => Some(FieldTag::LongString),
            TAG_FIELD_ARRAY => Some(FieldTag::FieldArray),
            TAG_TIMESTAMP => Some(FieldTag::Timestamp),
            TAG_FIELD_TABLE => Some(FieldTag::FieldTable),
            TAG_BYTE_ARRAY => Some(FieldTag::ByteArray),
            TAG_VOID => Some(FieldTag::Void),
            _ => None,
        }
    }

    /// The byte that the tag is written as.
    pub fn to_byte(self) -> u8
        ensures { result ≡ tag_byte self }
    {
        match self {
            FieldTag::Boolean => TAG_BOOLEAN,
            FieldTag::ShortShortInt => TAG_SHORT_SHORT_INT,
            FieldTag::ShortShortUInt => TAG_SHORT_SHORT_UINT,
            FieldTag::ShortInt => TAG_SHORT_INT,
            FieldTag::ShortUInt => TAG_SHORT_UINT,
            FieldTag::LongInt => TAG_LONG_INT,
            FieldTag::LongUInt => TAG_LONG_UINT,
            FieldTag::LongLongInt => TAG_LONG_LONG_INT,
            FieldTag::Float => TAG_FLOAT,
            FieldTag::Double => TAG_DOUBLE,
            FieldTag::DecimalValue => TAG_DECIMAL_VALUE,
            FieldTag::LongString => TAG_LONG_STRING,
            FieldTag::FieldArray => TAG_FIELD_ARRAY,
            FieldTag::Timestamp => TAG_TIMESTAMP,
            FieldTag::FieldTable => TAG_FIELD_TABLE,
            FieldTag::ByteArray => TAG_BYTE_ARRAY,
            FieldTag::Void => TAG_VOID,
        }
    }
}
