//! The bytes of frames that clients and brokers send, by their parts.

/// A message that a client publishes: its method, its content header and its body.
pub const PUBLISH: &[u8] = b"\x01\0\x01\0\0\0\x0e\0\x3c\0\x28\0\0\0\x05hello\0\xce";

pub const HEADER: &[u8] =
    b"\x02\0\x01\0\0\0\x1a\0\x3c\0\0\0\0\0\0\0\0\0\x05\x90\0\x0atext/plain\x02\xce";

pub const BODY: &[u8] = b"\x03\0\x01\0\0\0\x05hello\xce";

/// The bodies `he`, `ll` and `o`.
pub const BODIES: &[u8] =
    b"\x03\0\x01\0\0\0\x02he\xce\x03\0\x01\0\0\0\x02ll\xce\x03\0\x01\0\0\0\x01o\xce";

/// A queue is declared with all flags set.
pub const DECLARE: &[u8] = b"\x01\0\x01\0\0\0\x16\0\x32\0\x0a\0\0\x0asome_queue\x1f\0\0\0\0\xce";

/// A broker's `connection.start` before its properties, two of these, and what is after them.
pub const START: &[u8] = b"\x01\0\0\0\0\0\x59\0\x0a\0\x0a\0\x09\0\0\0\x34";

pub const PRODUCT: &[u8] = b"\x07productS\0\0\0\x08RabbitMQ";

pub const CAPABILITIES: &[u8] = b"\x0ccapabilitiesF\0\0\0\x0d\x0abasic.nackt\x01";

pub const START_END: &[u8] = b"\0\0\0\x0ePLAIN AMQPLAIN\0\0\0\x05en_US\xce";
