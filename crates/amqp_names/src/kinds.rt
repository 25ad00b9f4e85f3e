//! The kinds of fields, numbered as nodes number them.

/// A number of one byte.
pub const OCTET: u8 = 1;

/// A number of two bytes.
pub const SHORT: u8 = 2;

/// A number of four bytes.
pub const LONG: u8 = 3;

/// A number of eight bytes.
pub const LONG_LONG: u8 = 4;

/// A flag.
pub const FLAG: u8 = 5;

/// A short string.
pub const SHORT_STRING: u8 = 6;

/// A long string.
pub const LONG_STRING: u8 = 7;

/// A table.
pub const TABLE: u8 = 8;
