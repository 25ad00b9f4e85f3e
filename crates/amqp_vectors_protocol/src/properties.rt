//! The properties of messages are written as these bytes, and read from them.

use amqp_properties::{gen_properties, parse_properties, put_properties, size_properties};
use amqp_protocol::BasicProperties;
use amqp_types::ShortString;
use amqp_values::{AMQPValue, FieldTable};
use amqp_vectors::asking::{answers, reads, same};
use std::alloc::Global;
use std::test::Fail;

/// Fails unless the properties have this mask, are written as the first bytes, and read from the others.
fn agree(
    alloc: Global,
    properties: &BasicProperties,
    mask: u16,
    out: &mut Vec<u8>,
    written: &[u8],
    bytes: &[u8],
) -> Result<(), Fail> {
    gen_properties(alloc, out, properties)?;
    same((properties.bitmask(), out.as_slice()), (mask, written))?;
    out.fill(0);
    let end = put_properties(out, 0, properties);
    same((end, out.as_slice()), (written.len(), written))?;
    same(size_properties(properties), Ok(written.len() as u64))?;
    reads(parse_properties(alloc, bytes), bytes.len(), properties)?;
    answers(properties.copy(alloc), properties)
}

/// The same of properties that are let go then.
fn come_back(
    alloc: Global,
    properties: BasicProperties,
    mask: u16,
    written: &[u8],
    bytes: &[u8],
) -> Result<(), Fail> {
    agree(
        alloc,
        &properties,
        mask,
        &mut Vec::new(alloc),
        written,
        bytes,
    )
}

/// The short string with this text. Where memory is refused it is empty, and the test fails.
fn word(alloc: Global, text: &str) -> ShortString {
    match ShortString::new(alloc, text) {
        Ok(word) => word,
        Err(_) => ShortString::empty(alloc),
    }
}

/// The table that holds nothing under the key `k`.
fn table(alloc: Global) -> FieldTable {
    let mut table = FieldTable::new(alloc);
    let _ = table.insert(word(alloc, "k"), AMQPValue::Void);
    table
}

/// No two of one form are equal.
fn with_first_seven(alloc: Global) -> BasicProperties {
    BasicProperties::default()
        .with_content_type(word(alloc, "a"))
        .with_content_encoding(word(alloc, "b"))
        .with_headers(table(alloc))
        .with_delivery_mode(1)
        .with_priority(2)
        .with_correlation_id(word(alloc, "c"))
        .with_reply_to(word(alloc, "d"))
}

fn with_last_seven(alloc: Global, properties: BasicProperties) -> BasicProperties {
    properties
        .with_expiration(word(alloc, "e"))
        .with_message_id(word(alloc, "f"))
        .with_timestamp(3)
        .with_type(word(alloc, "g"))
        .with_user_id(word(alloc, "h"))
        .with_app_id(word(alloc, "i"))
        .with_cluster_id(word(alloc, "j"))
}

/// Each of the 14 properties.
pub const ALL: [u8; 39] = [
    255, 252, 1, 97, 1, 98, 0, 0, 0, 3, 1, 107, 86, 1, 2, 1, 99, 1, 100, 1, 101, 1, 102, 0, 0, 0,
    0, 0, 0, 0, 3, 1, 103, 1, 104, 1, 105, 1, 106,
];

/// The two unused bits are read and dropped.
#[test]
fn properties_are_read_as_written(rt: HostRuntime) -> Result<(), Fail> {
    let alloc = rt.alloc();
    let mut unused = ALL;
    unused[1] = 255;
    let properties = with_last_seven(alloc, with_first_seven(alloc));
    come_back(alloc, properties, 65532, &ALL, &unused)?;
    come_back(alloc, BasicProperties::default(), 0, &[0, 0], &[0, 3])?;
    let properties = BasicProperties::default()
        .with_content_type(word(alloc, "text/plain"))
        .with_delivery_mode(2);
    let written = b"\x90\0\x0atext/plain\x02";
    come_back(alloc, properties, 36864, written, written)
}
