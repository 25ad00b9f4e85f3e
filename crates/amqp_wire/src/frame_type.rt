//! Frame types (AMQP 0-9-1, section 4.2.3).

/// What the first byte of a frame names.
#[derive(Clone, Copy, Debug, PartialEq, Eq)]
pub enum AMQPFrameType {
    /// 65, the letter `A` of `AMQP`.
    ProtocolHeader,

    /// 1.
    Method,

    /// 2, a content header.
    Header,

    /// 3.
    Body,

    /// 8.
    Heartbeat,
}
