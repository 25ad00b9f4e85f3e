//! Messages that are made of their parts, split and copied.

use crate::frames::Step::{self, Read};
use crate::frames::{
    BODY, DELIVER, GET_OK, HEADER, HELLO, PUBLISH, PUBLISHED, RETURN, frames, let_go, message,
    opened_by,
};
use amqp_content::{Message, Opening, split};
use amqp_frame::AMQPFrame;
use amqp_properties::AMQPProperties;
use amqp_protocol::basic;
use amqp_types::{ByteArray, NoMemory, ParserError};
use amqp_vectors::asking::same;
use std::alloc::Global;
use std::fmt::Debug;
use std::test::Fail;

/// The bodies of at most two bytes that `hello` is split into.
const HE: [u8; 10] = [3, 0, 1, 0, 0, 0, 2, 104, 101, 206];

const LL: [u8; 10] = [3, 0, 1, 0, 0, 0, 2, 108, 108, 206];

const O: [u8; 9] = [3, 0, 1, 0, 0, 0, 1, 111, 206];

/// The frames of the message that some frames make, with bodies of at most two bytes.
pub fn split_by_two(alloc: Global, steps: &[Step]) -> Result<Vec<AMQPFrame>, ParserError> {
    match message(alloc, steps)? {
        Some(message) => Ok(split(alloc, message, 2)?),
        None => Ok(Vec::new(alloc)),
    }
}

/// Whether two messages have the same four parts.
fn have_same_parts(a: &Message, b: &Message) -> bool {
    a.channel() == b.channel()
        && a.opening() == b.opening()
        && a.properties() == b.properties()
        && a.body() == b.body()
}

/// Whether a deep copy of the message has its four parts.
fn is_copied(alloc: Global, message: Message) -> Result<bool, NoMemory> {
    let copied = message.copy(alloc);
    let is_copied = match &copied {
        Ok(copied) => Ok(have_same_parts(copied, &message)),
        Err(_) => Err(NoMemory),
    };
    let_go(copied);
    let_go(message);
    is_copied
}

/// Whether a deep copy of the message that some frames make has its four parts.
pub fn copies(alloc: Global, steps: &[Step]) -> Result<bool, ParserError> {
    match message(alloc, steps)? {
        Some(message) => Ok(is_copied(alloc, message)?),
        None => Ok(false),
    }
}

/// Whether the message that some frames make is published to the default exchange, with the routing key `hello`.
pub fn is_routed(alloc: Global, steps: &[Step]) -> Result<bool, ParserError> {
    match message(alloc, steps)? {
        Some(message) => {
            let opening = message.opening();
            let is_routed = opening.exchange() == "" && opening.routing_key() == "hello";
            let_go(message);
            Ok(is_routed)
        }
        None => Ok(false),
    }
}

/// Fails unless both calls returned an equal value: of any type, for a caller that owns neither.
fn agree<T: PartialEq + Debug + Drop>(
    found: Result<T, ParserError>,
    wanted: Result<T, ParserError>,
) -> Result<(), Fail> {
    same(found?, wanted?)
}

/// A message of each opening.
#[test]
fn messages_are_split_and_copied(rt: HostRuntime) -> Result<(), Fail> {
    let alloc = rt.alloc();
    let openings: [&[u8]; 4] = [&PUBLISH, &RETURN, &DELIVER, &GET_OK];
    for opening in openings {
        let steps = [Read(opening), Read(&HEADER), Read(&BODY)];
        let wanted = [Read(opening), Read(&HEADER), Read(&HE), Read(&LL), Read(&O)];
        agree(split_by_two(alloc, &steps), frames(alloc, &wanted))?;
        same(copies(alloc, &steps)?, true)?;
        same(is_routed(alloc, &steps)?, true)?;
    }
    Ok(())
}

/// The parts of a message on channel 1 of the body `hello`: its channel, what opens it, the mask of its properties, and
/// whether it has this body.
fn parts(alloc: Global) -> Result<(u16, u8, u16, bool), NoMemory> {
    let body = ByteArray::new(alloc, &HELLO)?;
    let opening = Opening::Publish(basic::Publish::empty(alloc));
    let message = Message::new(1, opening, AMQPProperties::default(), body);
    let parts = (
        message.channel(),
        opened_by(message.opening()),
        message.properties().bitmask(),
        message.body().as_slice() == HELLO.as_slice(),
    );
    let_go(message);
    Ok(parts)
}

#[test]
fn a_message_has_its_parts(rt: HostRuntime) -> Result<(), Fail> {
    same(parts(rt.alloc())?, (1, PUBLISHED, 0, true))
}
