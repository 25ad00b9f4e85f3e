//! Ids of no class, and of no method of a class.

use amqp_protocol::exchange::parse_exchange;
use amqp_protocol::parse_class;
use amqp_types::ParserError;
use amqp_vectors::asking::same;
use std::test::Fail;

#[test]
fn unknown_ids_are_refused(rt: HostRuntime) -> Result<(), Fail> {
    let class = parse_class(rt.alloc(), &[0, 99, 0, 10]);
    same(class.err(), Some(ParserError::UnknownClass))?;
    let method = parse_exchange(rt.alloc(), &[0, 41]);
    same(method.err(), Some(ParserError::UnknownMethod))
}
