//! The bytes that stand in front of values in tables and arrays (AMQP 0-9-1, section 4.2.5.5, with the tags in use).

/// The tag of a truth value.
pub const TAG_BOOLEAN: u8 = b't';

/// The tag of a signed number of 1 byte.
pub const TAG_SHORT_SHORT_INT: u8 = b'b';

/// The tag of an unsigned number of 1 byte.
pub const TAG_SHORT_SHORT_UINT: u8 = b'B';

/// The tag of a signed number of 2 bytes.
pub const TAG_SHORT_INT: u8 = b's';

/// The tag of an unsigned number of 2 bytes.
pub const TAG_SHORT_UINT: u8 = b'u';

/// The tag of a signed number of 4 bytes.
pub const TAG_LONG_INT: u8 = b'I';

/// The tag of an unsigned number of 4 bytes.
pub const TAG_LONG_UINT: u8 = b'i';

/// The tag of a signed number of 8 bytes.
pub const TAG_LONG_LONG_INT: u8 = b'l';

/// The tag of a number of 4 bytes with a fraction.
pub const TAG_FLOAT: u8 = b'f';

/// The tag of a number of 8 bytes with a fraction.
pub const TAG_DOUBLE: u8 = b'd';

/// The tag of a scale and an unsigned number.
pub const TAG_DECIMAL_VALUE: u8 = b'D';

/// The tag of a long string.
pub const TAG_LONG_STRING: u8 = b'S';

/// The tag of an array.
pub const TAG_FIELD_ARRAY: u8 = b'A';

/// The tag of a time.
pub const TAG_TIMESTAMP: u8 = b'T';

/// The tag of a table.
pub const TAG_FIELD_TABLE: u8 = b'F';

/// The tag of a byte array.
pub const TAG_BYTE_ARRAY: u8 = b'x';

/// The tag of no value.
pub const TAG_VOID: u8 = b'V';

/// Another tag of a signed number of 2 bytes, which is decoded and never written.
pub const TAG_SHORT_INT_READ: u8 = b'U';

/// Another tag of a signed number of 8 bytes, which is decoded and never written.
pub const TAG_LONG_LONG_INT_READ: u8 = b'L';
