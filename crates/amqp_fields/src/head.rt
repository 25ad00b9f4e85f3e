//! A head: a frame by its type, channel, ids and sizes, and where its payload and its nodes are.

ghost use Rattle.std.specs.Prelude.{◌≡◌};
ghost use Rattle.amqp_fields.specs.Heads.{no_head};

/// The bit of a form that says that the payload is canonical.
pub const CANONICAL: u8 = 1;

/// The bit of a form that says that the payload is tidy: reserved fields, the weight and unused bits stand at their
/// constants, and a heartbeat is empty.
pub const TIDY: u8 = 2;

/// A frame among others: the span of its payload is counted in the bytes of them all, and its nodes are a part of one list.
/// In C a head has 32 bytes and no padding.
#[repr(C)]
#[derive(Clone, Copy, Debug, PartialEq, Eq)]
pub struct Head {
    /// The size of the whole body that a content header announces, in bytes; else 0.
    pub body_size: u64,

    /// Where the payload begins.
    pub start: u32,

    /// How many bytes the payload has.
    pub length: u32,

    /// The place of its first node in the list.
    pub first: u32,

    /// How many nodes it has.
    pub nodes: u32,

    /// The channel, 0 for a protocol header.
    pub channel: u16,

    /// The class of a method or content header; else 0.
    pub class_id: u16,

    /// The method's id in its class; else 0.
    pub method_id: u16,

    /// The first byte: 65 protocol header, 1 method, 2 content header, 3 body, 8 heartbeat.
    pub frame_type: u8,

    /// `CANONICAL` and `TIDY`, each where the payload is so.
    pub form: u8,
}

impl Default for Head {
    /// A head of zeros, as a list is filled before it is passed.
    fn default() -> Head
        ensures { result ≡ no_head }
    {
        Head {
            body_size: 0,
            start: 0,
            length: 0,
            first: 0,
            nodes: 0,
            channel: 0,
            class_id: 0,
            method_id: 0,
            frame_type: 0,
            form: 0,
        }
    }
}
