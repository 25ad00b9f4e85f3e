//! Memory that runs out: `rt try --test --fail-alloc N` lets the Nth allocation of each test fail.

use crate::properties::ALL;
use amqp_protocol::basic::{AMQPProperties, gen_properties, parse_properties};
use amqp_types::{GenError, NoMemory, ParserError};
use amqp_vectors::asking::same;
use std::alloc::Global;
use std::test::Fail;

/// Whether the properties are appended after a 7 and copied, or memory is refused and the 7 is left alone.
fn properties_stay(alloc: Global, properties: &AMQPProperties) -> bool {
    let mut out = Vec::new(alloc);
    if out.push(7).is_err() {
        return true;
    }
    let is_appended = match gen_properties(alloc, &mut out, properties) {
        Ok(()) => out.get(1..) == Some(ALL.as_slice()),
        Err(error) => error == GenError::NoMemory && out.as_slice() == [7].as_slice(),
    };
    let is_copied = match properties.copy(alloc) {
        Ok(copied) => copied == *properties,
        Err(NoMemory) => true,
    };
    is_appended && is_copied
}

/// Whether the properties are read, or memory is refused.
fn properties_are_read(alloc: Global) -> bool {
    match parse_properties(alloc, &ALL) {
        Ok((used, properties)) => used == ALL.len() && properties_stay(alloc, &properties),
        Err(error) => error == ParserError::NoMemory,
    }
}

#[test]
fn refused_memory_leaves_all_properties(rt: HostRuntime) -> Result<(), Fail> {
    same(properties_are_read(rt.alloc()), true)
}
