//! Sequences of frames with the outcomes that they have, pushed one after another and assembled together.

use crate::frames::Step::{self, Ack, Body, Header, Heartbeat, Publish, Read};
use crate::frames::{
    BODY, DELIVER, DELIVERED, GET_OK, GOT, HEADER, HELD, PASSED, PUBLISH, PUBLISHED, RETURN,
    RETURNED, frames, let_go, number, pushed,
};
use amqp_content::{
    Assembler, ContentFault, answers_are_steps, assemble, channels_are_answered,
    channels_are_apart, interleaved_are_whole, outlines_answer_alike, splits_are_whole,
};
use amqp_frame::AMQPFrame;
use amqp_types::NoMemory;
use amqp_vectors::asking::same;
use std::alloc::Global;
use std::test::Fail;

const UNEXPECTED_METHOD: u8 = 1;

const UNEXPECTED_HEADER: u8 = 2;

const UNEXPECTED_BODY: u8 = 3;

const WRONG_CLASS: u8 = 4;

const BODY_TOO_LARGE: u8 = 5;

const BODY_OVERRUN: u8 = 6;

const FAULTED: u8 = 7;

/// The greatest body that may be announced, the body that a message has, frames, and their outcomes.
type Row = (u64, &'static [u8], &'static [Step], &'static [u8]);

const ROWS: &[Row] = &[
    (
        5,
        b"hello",
        &[Read(&PUBLISH), Read(&HEADER), Read(&BODY)],
        &[HELD, HELD, PUBLISHED],
    ),
    (
        5,
        b"hello",
        &[Read(&RETURN), Read(&HEADER), Read(&BODY)],
        &[HELD, HELD, RETURNED],
    ),
    (
        5,
        b"hello",
        &[Read(&DELIVER), Read(&HEADER), Read(&BODY)],
        &[HELD, HELD, DELIVERED],
    ),
    (
        5,
        b"hello",
        &[Read(&GET_OK), Read(&HEADER), Read(&BODY)],
        &[HELD, HELD, GOT],
    ),
    (
        5,
        b"h",
        &[
            Publish(1),
            Body(2, 1),
            Header(1, 60, 1),
            Publish(2),
            Body(1, 1),
        ],
        &[HELD, UNEXPECTED_BODY, HELD, FAULTED, PUBLISHED],
    ),
    (
        4,
        b"",
        &[Read(&PUBLISH), Read(&HEADER), Read(&BODY)],
        &[HELD, BODY_TOO_LARGE, FAULTED],
    ),
    (
        5,
        b"hello",
        &[
            Publish(1),
            Header(1, 60, 5),
            Heartbeat,
            Body(1, 5),
            Body(1, 1),
        ],
        &[HELD, HELD, PASSED, PUBLISHED, UNEXPECTED_BODY],
    ),
    (5, b"", &[Publish(1), Header(1, 60, 0)], &[HELD, PUBLISHED]),
    (
        5,
        b"hh",
        &[
            Publish(1),
            Header(1, 60, 2),
            Body(1, 0),
            Body(1, 1),
            Body(1, 0),
            Body(1, 1),
        ],
        &[HELD, HELD, HELD, HELD, HELD, PUBLISHED],
    ),
    (
        5,
        b"",
        &[Publish(1), Header(1, 10, 1)],
        &[HELD, WRONG_CLASS],
    ),
    (
        5,
        b"",
        &[Header(1, 60, 1), Ack(1)],
        &[UNEXPECTED_HEADER, FAULTED],
    ),
    (
        5,
        b"",
        &[Ack(1), Heartbeat, Publish(1), Heartbeat, Ack(1), Heartbeat],
        &[PASSED, PASSED, HELD, PASSED, UNEXPECTED_METHOD, PASSED],
    ),
    (
        5,
        b"",
        &[Publish(1), Header(1, 60, 1), Header(1, 60, 1)],
        &[HELD, HELD, UNEXPECTED_HEADER],
    ),
    (
        5,
        b"",
        &[Publish(1), Header(1, 60, 1), Body(1, 2)],
        &[HELD, HELD, BODY_OVERRUN],
    ),
    (
        4,
        b"",
        &[Publish(1), Header(1, 60, 5), Body(1, 5)],
        &[HELD, BODY_TOO_LARGE, FAULTED],
    ),
];

/// The numbers of the outcomes of frames that are pushed one after another.
fn push_all(
    alloc: Global,
    assembler: &mut Assembler,
    steps: &[Step],
    body: &[u8],
) -> Result<Vec<u8>, Fail> {
    let mut numbers = Vec::new(alloc);
    for step in steps {
        numbers.push(pushed(alloc, assembler, *step, body)?)?;
    }
    Ok(numbers)
}

/// The same with an assembler of their own.
fn push_each(alloc: Global, max_body: u64, steps: &[Step], body: &[u8]) -> Result<Vec<u8>, Fail> {
    let mut assembler = Assembler::open(alloc, max_body);
    let numbers = push_all(alloc, &mut assembler, steps, body);
    let_go(assembler);
    numbers
}

/// The numbers of the outcomes of frames that are assembled together.
fn assemble_all(
    alloc: Global,
    max_body: u64,
    frames: Vec<AMQPFrame>,
    body: &[u8],
) -> Result<Vec<u8>, NoMemory> {
    let mut numbers = Vec::new(alloc);
    for outcome in assemble(alloc, max_body, frames)? {
        numbers.push(number(outcome, body))?;
    }
    Ok(numbers)
}

#[test]
fn sequences_have_their_outcomes(rt: HostRuntime) -> Result<(), Fail> {
    let alloc = rt.alloc();
    for (max_body, body, steps, wanted) in ROWS {
        let pushed = push_each(alloc, *max_body, steps, body)?;
        same(pushed.as_slice(), *wanted)?;
        let assembled = assemble_all(alloc, *max_body, frames(alloc, steps)?, body)?;
        same(assembled.as_slice(), *wanted)?;
    }
    Ok(())
}

#[test]
fn faults_have_names(_rt: HostRuntime) -> Result<(), Fail> {
    same(ContentFault::UnexpectedMethod.name(), "UnexpectedMethod")?;
    same(ContentFault::WrongClass.number(), WRONG_CLASS)?;
    same(ContentFault::Faulted.name(), "Faulted")
}

#[test]
fn laws_may_be_called(_rt: HostRuntime) {
    answers_are_steps();
    splits_are_whole();
    interleaved_are_whole();
    outlines_answer_alike();
    channels_are_answered();
    channels_are_apart();
}
