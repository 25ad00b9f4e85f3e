//! Why frames and contents are not written.

ghost use Rattle.std.specs.Prelude.{◌≡◌};
ghost use Rattle.amqp_fields_write.specs.Made.{refusal, refusal_of_head};

use amqp_types::ParserError;

/// Why a head or a node is refused.
#[derive(Clone, Copy, Debug, PartialEq, Eq)]
pub enum WriteRefusal {
    /// A member is not what its frame, field or value has: a type, a kind, a place, a number outside its width, a span
    /// outside the pool, nodes that do not nest, a field that misses or is too many.
    BadArgument,

    /// The ids are no method, a text is not UTF-8, tables and arrays nest too deep, or content that stands in the pool
    /// has this fault.
    Payload(ParserError),

    /// A short string has more than 255 bytes, or what fills a table or an array has more than 4 bytes count.
    TooLong,

    /// The payload is longer than the limit.
    TooLarge,
}

/// Which node is refused, and why.
#[derive(Clone, Copy, Debug, PartialEq, Eq)]
pub struct Refusal {
    /// Which one of all nodes; none where a head is refused, or a content as a whole. Where a field misses, the place behind the
    /// last node.
    pub node: Option<usize>,

    /// Why.
    pub why: WriteRefusal,
}

impl Refusal {
    /// A member that is not what it has to be.
    pub(crate) fn bad(node: usize) -> Refusal
        ensures { result ≡ refusal node WriteRefusal.BadArgument }
    {
        Refusal {
            node: Some(node),
            why: WriteRefusal::BadArgument,
        }
    }

    /// A fault as decoding has it.
    pub(crate) fn payload(node: usize, error: ParserError) -> Refusal
        ensures { result ≡ refusal node (WriteRefusal.Payload error) }
    {
        Refusal {
            node: Some(node),
            why: WriteRefusal::Payload(error),
        }
    }

    /// Why a head is refused, or a content as a whole, and none of its nodes.
    pub(crate) fn of_head(why: WriteRefusal) -> Refusal
        ensures { result ≡ refusal_of_head why }
    {
        Refusal { node: None, why }
    }
}

/// Why nothing was written.
#[derive(Clone, Copy, Debug, PartialEq, Eq)]
pub enum WriteError {
    /// A head or a node is refused, the first from left to right.
    Refused {
        /// Which head; 0 of a content alone.
        head: usize,

        /// Which one of all nodes; none where the head itself is refused, or a content as a whole. Where a field misses, the
        /// place behind the last node.
        node: Option<usize>,

        /// Why.
        why: WriteRefusal,
    },

    /// The buffer is shorter than the bytes.
    TooSmall {
        /// How many bytes there are.
        needed: u64,
    },
}
