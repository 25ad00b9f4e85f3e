//! Content headers (AMQP 0-9-1, section 4.2.6.1): what a message says of itself, between the method that carries it and
//! its body.

ghost use Rattle.std.specs.Prelude.{◌≡◌, ◌^◌, ◌≤◌, ◌∷◌, [], length, IfOk};
ghost use Rattle.amqp_types.specs.Calls.{Parses, HasRoom};
ghost use Rattle.amqp_types.specs.Writing.{Puts};
ghost use Rattle.amqp_types.specs.SlotBytes.{slots_bytes};
ghost use Rattle.amqp_types.specs.SlotJudging.{Steps, judge_slots};
ghost use Rattle.amqp_types.specs.Slots.{number_item};
ghost use Rattle.amqp_types.specs.ContentHeaders.{header_slots, judge_content_header};
ghost use Rattle.amqp_types.specs.ContentHeaders.{content_header_bytes, content_header_size};
ghost use Rattle.amqp_properties.specs.Headers.{header_of};

use crate::generation::{put_properties, size_properties};
use crate::parsing::parse_properties;
use crate::properties::AMQPProperties;
use amqp_values::{
    GenError, Identifier, NoMemory, ParserError, PayloadSize, SlotReader, put_bytes,
};
use std::alloc::Global;

/// What a message says of itself: class, body size and properties.
#[derive(Debug, PartialEq, Drop)]
pub struct AMQPContentHeader {
    /// The class of the method that carries the message. Any number is decoded.
    pub class_id: Identifier,

    /// The size in bytes of the whole body.
    pub body_size: PayloadSize,

    /// The properties that are set.
    pub properties: AMQPProperties,
}

impl AMQPContentHeader {
    /// A deep copy.
    pub fn copy(&self, alloc: Global) -> Result<AMQPContentHeader, NoMemory>
        ensures { IfOk result (λ copied. copied ≡ self.now) }
    {
        Ok(AMQPContentHeader {
            class_id: self.class_id,
            body_size: self.body_size,
            properties: self.properties.copy(alloc)?,
        })
    }
}

/// Decodes what comes before the properties: a class id, a weight, which is dropped, and the size of the body in bytes.
#[tactic(auto, using(amqp_types::proofs::Judged::refuses_next), unfolding(amqp_types::specs::SlotJudging::judge_slots, amqp_types::specs::ContentHeaders::header_slots))]
fn read_start(slots: &mut SlotReader<'_>) -> Result<(Identifier, PayloadSize), ParserError>
    ensures step { Steps (λ start. number_item start.0 ∷ number_item start.1 ∷ [])
        result slots.old.rest.now slots.new.rest.now (judge_slots header_slots) }
    ensures left { length slots.new.rest.now ≤ length slots.old.rest.now }
{
    let class_id = slots.short_uint()?;
    slots.skip_short_uint()?;
    let body_size = slots.long_long_uint()?;
    Ok((class_id, body_size))
}

/// Decodes a content header at the front: a class id, a weight, which is dropped, the size of the body, and properties.
#[tactic(auto, using(amqp_types::proofs::Judged::refuses_next), unfolding(amqp_types::specs::ContentHeaders::judge_content_header))]
pub fn parse_content_header(
    alloc: Global,
    i: &[u8],
) -> Result<(usize, AMQPContentHeader), ParserError>
    ensures { Parses header_of result i.now judge_content_header }
{
    let mut slots = SlotReader::new(i);
    let (class_id, body_size) = read_start(&mut slots)?;
    let used = slots.used(i);
    let (n, properties) = parse_properties(alloc, slots.rest)?;
    let header = AMQPContentHeader {
        class_id,
        body_size,
        properties,
    };
    Ok((used + n, header))
}

/// What comes before the properties: the class id, a weight of 0, the size of the body.
#[tactic(auto, unfolding(amqp_types::specs::SlotBytes::slots_bytes, amqp_types::specs::SlotBytes::form_bytes, amqp_types::specs::ContentHeaders::header_slots))]
fn header_start(class_id: Identifier, body_size: PayloadSize) -> [u8; 12]
    ensures { result
        ≡ slots_bytes header_slots (number_item class_id ∷ number_item body_size ∷ []) }
{
    let class = class_id.to_be_bytes();
    let size = body_size.to_be_bytes();
    [
        class[0], class[1], 0, 0, size[0], size[1], size[2], size[3], size[4], size[5], size[6],
        size[7],
    ]
}

/// The number of bytes that a content header's payload is written in.
#[tactic(auto, unfolding(amqp_types::specs::PropertyBytes::properties_size, amqp_types::specs::ContentHeaders::content_header_bytes, amqp_types::specs::ContentHeaders::content_header_size))]
pub fn size_content_header(header: &AMQPContentHeader) -> Result<u64, GenError>
    ensures size { result ≡ content_header_size (header_of header.now) }
    ensures bound { IfOk result (λ n. n ≤ 2 ^ 41) }
{
    Ok(12 + size_properties(&header.properties)?)
}

/// Puts a content header's payload at a place of a slice, and returns the place after it.
#[tactic(auto, unfolding(amqp_types::specs::PropertyBytes::properties_size, amqp_types::specs::ContentHeaders::content_header_bytes, amqp_types::specs::ContentHeaders::content_header_size))]
pub fn put_content_header(buf: &mut [u8], at: usize, header: &AMQPContentHeader) -> usize
    requires { HasRoom buf.old at (content_header_size (header_of header.now))
        (content_header_bytes (header_of header.now)) }
    ensures { Puts buf.old buf.new at (content_header_bytes (header_of header.now)) result }
{
    let at = put_bytes(buf, at, &header_start(header.class_id, header.body_size));
    put_properties(buf, at, &header.properties)
}
