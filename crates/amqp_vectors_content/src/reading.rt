//! Messages as a client reads them, out of bytes.

use crate::frames::{HELLO, PUBLISHED, done, let_go, number_of};
use amqp_content::{Assembler, Message};
use amqp_frame::parse_frame;
use amqp_types::ParserError;
use amqp_vectors::asking::same;
use std::alloc::Global;
use std::test::Fail;

/// The messages in some bytes of frames, as a client reads them: parse a frame, push it, and take the
/// message that it completes.
fn read_all(
    alloc: Global,
    assembler: &mut Assembler,
    bytes: &[u8],
) -> Result<Vec<Message>, ParserError> {
    let mut messages = Vec::new(alloc);
    let mut rest = bytes;
    for _ in 0..bytes.len() {
        if rest.is_empty() {
            break;
        }
        let (used, frame) = parse_frame(alloc, rest)?;
        rest = &rest[used..];
        if let Some(message) = done(assembler.push(frame)?) {
            let Ok(()) = messages.push(message) else {
                return Err(ParserError::NoMemory);
            };
        }
    }
    Ok(messages)
}

/// The same with an assembler of their own.
fn messages(alloc: Global, bytes: &[u8]) -> Result<Vec<Message>, ParserError> {
    let mut assembler = Assembler::open(alloc, 1_048_576);
    let messages = read_all(alloc, &mut assembler, bytes);
    let_go(assembler);
    messages
}

/// A client's message on channel 1: `basic.publish` to the queue `hello`, its content header and its body.
const BYTES: [u8; 69] = [
    1, 0, 1, 0, 0, 0, 14, 0, 60, 0, 40, 0, 0, 0, 5, 104, 101, 108, 108, 111, 0, 206, 2, 0, 1, 0, 0,
    0, 26, 0, 60, 0, 0, 0, 0, 0, 0, 0, 0, 0, 5, 144, 0, 10, 116, 101, 120, 116, 47, 112, 108, 97,
    105, 110, 2, 206, 3, 0, 1, 0, 0, 0, 5, 104, 101, 108, 108, 111, 206,
];

/// The numbers of the messages in some bytes of frames, by the body that they are to have.
fn numbers(alloc: Global, bytes: &[u8], body: &[u8]) -> Result<Vec<u8>, Fail> {
    let mut numbers = Vec::new(alloc);
    for message in messages(alloc, bytes)? {
        numbers.push(number_of(message, body))?;
    }
    Ok(numbers)
}

#[test]
fn bytes_to_messages(rt: HostRuntime) -> Result<(), Fail> {
    let numbers = numbers(rt.alloc(), &BYTES, &HELLO)?;
    same(numbers.as_slice(), &[PUBLISHED])
}
