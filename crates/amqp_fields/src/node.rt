//! A node: a field of a frame, or a value in a table or an array, by a number or by a span of the payload.

ghost use Rattle.std.specs.Prelude.{◌≡◌, ◌≤◌, ◌+◌, ◌-◌, length};
ghost use Rattle.amqp_fields.specs.Nodes.{blank, spanned};

/// The kind of a field of one byte.
pub const OCTET: u8 = 1;

/// The kind of a field of two bytes.
pub const SHORT: u8 = 2;

/// The kind of a field of four bytes.
pub const LONG: u8 = 3;

/// The kind of a field of eight bytes.
pub const LONG_LONG: u8 = 4;

/// The kind of a flag.
pub const FLAG: u8 = 5;

/// The kind of a field that is a short string.
pub const SHORT_STRING: u8 = 6;

/// The kind of a field that is a long string.
pub const LONG_STRING: u8 = 7;

/// The kind of a field that is a table.
pub const TABLE: u8 = 8;

/// A field of a frame, or a value in a table or an array. Spans are counted from the front of the payload. In C a node
/// has 32 bytes and no padding.
#[repr(C)]
#[derive(Clone, Copy, Debug, PartialEq, Eq)]
pub struct Node {
    /// A number, a signed one in two's complement; 0 or 1 of a flag or truth value; the bits of a number with a fraction; the
    /// unsigned number of a decimal.
    pub number: u64,

    /// Where the bytes of a string or byte array begin, or the content of a table or an array, without its length.
    pub start: u32,

    /// How many these bytes are.
    pub length: u32,

    /// Where the key of an entry begins.
    pub key_start: u32,

    /// How many of the nodes that follow lie inside this one.
    pub inside: u32,

    /// How many of these are its own entries or values.
    pub items: u32,

    /// How many bytes the key of an entry has.
    pub key_length: u8,

    /// The kind of a field, 1 to 8, or the tag byte of a value in a table or an array.
    pub kind: u8,

    /// Which field of its method it is, reserved ones not counted and each flag one; which of the 14 properties; else 0.
    pub place: u8,

    /// How many digits of a decimal are behind the point.
    pub scale: u8,
}

impl Default for Node {
    /// A node of zeros, as a list is filled before it is passed.
    fn default() -> Node
        ensures { result ≡ blank }
    {
        Node {
            number: 0,
            start: 0,
            length: 0,
            key_start: 0,
            inside: 0,
            items: 0,
            key_length: 0,
            kind: 0,
            place: 0,
            scale: 0,
        }
    }
}

/// The place that is before these bytes, which end at a place of the payload.
#[inline(always)]
pub(crate) fn before(end: u32, rest: &[u8]) -> u32
    requires within { length rest.now ≤ end }
    ensures { result ≡ end - length rest.now }
{
    end - rest.len() as u32
}

/// The node with a span: some bytes that end at this place of the payload.
#[inline(always)]
pub(crate) fn spanned(label: Node, end: u32, content: &[u8]) -> Node
    requires within { length content.now ≤ end }
    ensures { result ≡ spanned label end content.now }
{
    Node {
        start: end - content.len() as u32,
        length: content.len() as u32,
        ..label
    }
}

/// The node with the span of what a length of 4 bytes covers at the front of some bytes, which end at this place of the payload.
#[inline(always)]
pub(crate) fn covered(label: Node, end: u32, i: &[u8], content: &[u8]) -> Node
    requires within { length i.now ≤ end }
    requires size { 4 + length content.now ≤ length i.now }
    ensures { result ≡ spanned label (end - (length i.now - (4 + length content.now))) content.now }
{
    Node {
        start: before(end, i) + 4,
        length: content.len() as u32,
        ..label
    }
}
