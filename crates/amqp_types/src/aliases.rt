//! The names that AMQP gives to numbers.

/// A truth value.
pub type Boolean = bool;

/// A signed number of 1 byte.
pub type ShortShortInt = i8;

/// An unsigned number of 1 byte, an `octet`.
pub type ShortShortUInt = u8;

/// A signed number of 2 bytes.
pub type ShortInt = i16;

/// An unsigned number of 2 bytes.
pub type ShortUInt = u16;

/// A signed number of 4 bytes.
pub type LongInt = i32;

/// An unsigned number of 4 bytes.
pub type LongUInt = u32;

/// A signed number of 8 bytes.
pub type LongLongInt = i64;

/// An unsigned number of 8 bytes.
pub type LongLongUInt = u64;

/// The bits of an IEEE 754 number of 4 bytes.
pub type Float = u32;

/// The bits of an IEEE 754 number of 8 bytes.
pub type Double = u64;

/// Seconds since the beginning of 1970.
pub type Timestamp = u64;

/// The id of a class or of a method.
pub type Identifier = u16;

/// The number of a channel; 0 is the connection itself.
pub type ChannelId = u16;

/// The size of a message's body, in bytes.
pub type PayloadSize = u64;

/// The size of a frame's payload, in bytes.
pub type ChunkSize = u32;
