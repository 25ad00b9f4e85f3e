//! The numbers that frames and replies are made with.

pub use amqp_types::{FRAME_BODY, FRAME_END, FRAME_HEADER, FRAME_HEARTBEAT, FRAME_METHOD};
use amqp_types::{LongUInt, ShortUInt};

/// The frame size in bytes that each peer takes. The standard has 4096; RabbitMQ has this one.
pub const FRAME_MIN_SIZE: LongUInt = 8192;

/// The reply code of a peer that closes without an error (AMQP 0-9-1, section 1.2).
pub const REPLY_SUCCESS: ShortUInt = 200;
