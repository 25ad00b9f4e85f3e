//! The parts that frames are read by.

use amqp_frame::{
    AMQPChannel, AMQPFrameType, ProtocolVersion, parse_channel, parse_frame_type,
    parse_protocol_header,
};
use amqp_vectors::asking::same;
use std::test::Fail;

#[test]
fn parts_are_read() -> Result<(), Fail> {
    same(parse_channel(&[0, 0]), Ok((2, AMQPChannel::Global)))?;
    same(parse_channel(&[1, 2]), Ok((2, AMQPChannel::Id(258))))?;
    same(AMQPChannel::from(0), AMQPChannel::Global)?;
    same(AMQPChannel::Id(0).get_id(), 0)?;
    same(AMQPChannel::Id(0) != AMQPChannel::Global, true)?;
    same(parse_frame_type(&[8]), Ok((1, AMQPFrameType::Heartbeat)))?;
    let version = ProtocolVersion {
        major: 1,
        minor: 2,
        revision: 3,
    };
    let read = parse_protocol_header(&[77, 81, 80, 0, 1, 2, 3]);
    same(read, Ok((7, version)))
}
