//! How sequences are tested: frames by what matters of them, and what becomes of them as numbers. Frames and outcomes
//! are handed on by value: a test that owns neither costs its own proof little.

use amqp_content::{Assembler, Message, Opening, Outcome};
use amqp_frame::{AMQPContentHeader, AMQPFrame, parse_frame};
use amqp_properties::AMQPProperties;
use amqp_protocol::{AMQPClass, basic};
use amqp_types::{ByteArray, ParserError};
use std::alloc::Global;

/// A client's message on channel 1: `basic.publish` to the queue `hello`, its content header and its body.
pub const PUBLISH: [u8; 22] = [
    1, 0, 1, 0, 0, 0, 14, 0, 60, 0, 40, 0, 0, 0, 5, 104, 101, 108, 108, 111, 0, 206,
];

pub const HEADER: [u8; 34] = [
    2, 0, 1, 0, 0, 0, 26, 0, 60, 0, 0, 0, 0, 0, 0, 0, 0, 0, 5, 144, 0, 10, 116, 101, 120, 116, 47,
    112, 108, 97, 105, 110, 2, 206,
];

pub const BODY: [u8; 13] = [3, 0, 1, 0, 0, 0, 5, 104, 101, 108, 108, 111, 206];

/// The server hands the message back: no route (312), in the words `no`.
pub const RETURN: [u8; 24] = [
    1, 0, 1, 0, 0, 0, 16, 0, 60, 0, 50, 1, 56, 2, 110, 111, 0, 5, 104, 101, 108, 108, 111, 206,
];

/// The server sends the message to the consumer `c`.
pub const DELIVER: [u8; 30] = [
    1, 0, 1, 0, 0, 0, 22, 0, 60, 0, 60, 1, 99, 0, 0, 0, 0, 0, 0, 0, 1, 0, 0, 5, 104, 101, 108, 108,
    111, 206,
];

/// The server sends the message that was asked for; two more are in the queue.
pub const GET_OK: [u8; 32] = [
    1, 0, 1, 0, 0, 0, 24, 0, 60, 0, 71, 0, 0, 0, 0, 0, 0, 0, 1, 1, 0, 5, 104, 101, 108, 108, 111,
    0, 0, 0, 2, 206,
];

/// A frame of a sequence: its channel, and what else matters of it.
#[derive(Clone, Copy)]
pub enum Step {
    Publish(u16),
    Ack(u16),
    /// The class id, and the size of the body.
    Header(u16, u16, u64),
    /// How many bytes of the body, at most five.
    Body(u16, usize),
    Heartbeat,
    /// The frame that these bytes encode.
    Read(&'static [u8]),
}

/// The number of the outcome of a frame that is part of no message. (A fault has its own number, from 1 to 7.)
pub const PASSED: u8 = 100;

/// The number of the outcome of a frame that is held for its message.
pub const HELD: u8 = 101;

/// The number of the outcome of a frame that completes a message of another body than the wanted one.
pub const OTHER_BODY: u8 = 102;

/// The numbers of the outcomes of frames that complete a message: the id of the method that opens it.
pub const PUBLISHED: u8 = 40;

pub const RETURNED: u8 = 50;

pub const DELIVERED: u8 = 60;

pub const GOT: u8 = 71;

/// The body `hello`, of which a step takes the first bytes.
pub const HELLO: [u8; 5] = [104, 101, 108, 108, 111];

/// The frame of a step.
pub fn frame(alloc: Global, step: Step) -> Result<AMQPFrame, ParserError> {
    match step {
        Step::Publish(channel) => Ok(AMQPFrame::Method(
            channel,
            AMQPClass::Basic(basic::AMQPMethod::Publish(basic::Publish::empty(alloc))),
        )),
        Step::Ack(channel) => Ok(AMQPFrame::Method(
            channel,
            AMQPClass::Basic(basic::AMQPMethod::Ack(basic::Ack::default())),
        )),
        Step::Header(channel, class_id, body_size) => Ok(AMQPFrame::Header(
            channel,
            AMQPContentHeader {
                class_id,
                body_size,
                properties: AMQPProperties::default(),
            },
        )),
        Step::Body(channel, length) => {
            let n = length.min(5);
            Ok(AMQPFrame::Body(channel, ByteArray::new(alloc, &HELLO[..n])?))
        }
        Step::Heartbeat => Ok(AMQPFrame::Heartbeat),
        Step::Read(bytes) => {
            let (_, frame) = parse_frame(alloc, bytes)?;
            Ok(frame)
        }
    }
}

/// A list with one item more, for items of any type: a caller that hands on both owns neither.
fn with<T: Drop>(mut list: Vec<T>, item: Result<T, ParserError>) -> Result<Vec<T>, ParserError> {
    match list.push(item?) {
        Ok(()) => Ok(list),
        Err(_) => Err(ParserError::NoMemory),
    }
}

/// The frames of steps.
pub fn frames(alloc: Global, steps: &[Step]) -> Result<Vec<AMQPFrame>, ParserError> {
    let mut frames = Vec::new(alloc);
    for step in steps {
        frames = with(frames, frame(alloc, *step))?;
    }
    Ok(frames)
}

/// Drops a value of any type, so that its parts do not come into the proof of a caller.
pub fn let_go<T: Drop>(_value: T) {}

/// The id of the method that opens a message.
pub fn opened_by(opening: &Opening) -> u8 {
    match opening {
        Opening::Publish(_) => PUBLISHED,
        Opening::Return(_) => RETURNED,
        Opening::Deliver(_) => DELIVERED,
        Opening::GetOk(_) => GOT,
    }
}

/// The number of the outcome that a message is, by the wanted body.
pub fn number_of(message: Message, body: &[u8]) -> u8 {
    let number = if message.body().as_slice() == body {
        opened_by(message.opening())
    } else {
        OTHER_BODY
    };
    let_go(message);
    number
}

/// The number of an outcome, by the body that a message is to have.
pub fn number(outcome: Outcome, body: &[u8]) -> u8 {
    match outcome {
        Outcome::Passed(frame) => {
            let_go(frame);
            PASSED
        }
        Outcome::Held => HELD,
        Outcome::Done(message) => number_of(message, body),
        Outcome::Fault(fault) => fault.number(),
    }
}

/// Pushes the frame of a step, and returns the number of its outcome.
pub fn pushed(
    alloc: Global,
    assembler: &mut Assembler,
    step: Step,
    body: &[u8],
) -> Result<u8, ParserError> {
    let frame = frame(alloc, step)?;
    let outcome = assembler.push(frame)?;
    Ok(number(outcome, body))
}

/// The message that an outcome is.
pub fn done(outcome: Outcome) -> Option<Message> {
    match outcome {
        Outcome::Passed(frame) => {
            let_go(frame);
            None
        }
        Outcome::Held => None,
        Outcome::Done(message) => Some(message),
        Outcome::Fault(_) => None,
    }
}

/// The first message that frames complete.
fn completed(
    alloc: Global,
    assembler: &mut Assembler,
    steps: &[Step],
) -> Result<Option<Message>, ParserError> {
    for step in steps {
        let frame = frame(alloc, *step)?;
        if let Some(message) = done(assembler.push(frame)?) {
            return Ok(Some(message));
        }
    }
    Ok(None)
}

/// The message that frames make.
pub fn message(alloc: Global, steps: &[Step]) -> Result<Option<Message>, ParserError> {
    let mut assembler = Assembler::open(alloc, 5);
    let message = completed(alloc, &mut assembler, steps);
    let_go(assembler);
    message
}
