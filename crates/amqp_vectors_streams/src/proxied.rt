//! A connection through the proxy: a message from the client, and the start from the server. The same, frame by frame.

use crate::asking::{LIMIT, MESSAGE, ONES, START, START_IN_ORDER, has_ended};
use crate::forwarding::forward;
use crate::proxy::Connection;
use amqp_stream::{FrameReader, OutputBuffer, PieceSource, SliceSource, StreamError, VecSink};
use amqp_vectors::asking::same;
use std::alloc::Global;
use std::test::Fail;

/// Fails unless a message from the client passes.
fn sends(alloc: Global, connection: &mut Connection) -> Result<(), Fail> {
    let mut server = VecSink::new(alloc);
    let sent = connection.from_client(&mut SliceSource::new(&MESSAGE), &mut server, 9);
    has_ended("a client", sent, Ok(()), server.bytes(), &MESSAGE)
}

/// Fails unless the start from the server ends so.
fn receives(
    alloc: Global,
    connection: &mut Connection,
    outcome: Result<(), StreamError>,
    written: &[u8],
) -> Result<(), Fail> {
    let mut client = VecSink::new(alloc);
    let sent = connection.from_server(&mut SliceSource::new(&START), &mut client, 9);
    has_ended("a server", sent, outcome, client.bytes(), written)
}

/// The first budget is for payloads of at most 92 bytes. With the second, for payloads of at most 32, the start is
/// refused before it is read into memory.
#[test]
fn both_directions_are_canonical(rt: HostRuntime) -> Result<(), Fail> {
    let alloc = rt.alloc();
    let mut connection = Connection::open(alloc, 2000)?;
    sends(alloc, &mut connection)?;
    receives(alloc, &mut connection, Ok(()), &START_IN_ORDER)?;
    let mut narrow = Connection::open(alloc, 800)?;
    receives(alloc, &mut narrow, Err(StreamError::TooLarge), &[])
}

/// A message in single bytes takes a read for each of them, and one for the end of input.
#[test]
fn frames_are_forwarded_one_by_one(rt: HostRuntime) -> Result<(), Fail> {
    let alloc = rt.alloc();
    let mut reader = FrameReader::open(alloc, LIMIT)?;
    let mut out = OutputBuffer::open(alloc, LIMIT as usize + 8)?;
    let mut budget = 100;
    let mut source = PieceSource::new(&MESSAGE, &ONES, &[]);
    let mut server = VecSink::new(alloc);
    let sent = forward(&mut reader, &mut out, &mut source, &mut server, &mut budget);
    let left = budget;
    let mut source = SliceSource::new(&START);
    let mut client = VecSink::new(alloc);
    let then = forward(&mut reader, &mut out, &mut source, &mut client, &mut budget);
    has_ended("a message", sent, Ok(()), server.bytes(), &MESSAGE)?;
    has_ended("a start", then, Ok(()), client.bytes(), &START_IN_ORDER)?;
    same(left, 30)
}
