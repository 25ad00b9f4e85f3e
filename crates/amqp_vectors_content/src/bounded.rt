//! A bound on what all messages that are not complete hold together.

use crate::frames::Step::{self, Body, Header, Publish};
use crate::frames::{HELD, OTHER_BODY, frame, let_go, number};
use amqp_content::{BoundedAssembler, Taken};
use amqp_types::ParserError;
use amqp_vectors::asking::same;
use std::alloc::Global;
use std::test::Fail;

/// The number of a frame that would pass the bound.
const FULL: u8 = 103;

const UNEXPECTED_BODY: u8 = 3;

/// Frames with a bound on the bytes that are held, what becomes of each, and how many are held after it.
const ROWS: &[(Step, u64, u8, u64)] = &[
    (Publish(1), 6, HELD, 0),
    (Header(1, 60, 5), 6, HELD, 0),
    (Body(1, 4), 6, HELD, 4),
    (Publish(2), 6, HELD, 4),
    (Header(2, 60, 5), 6, HELD, 4),
    (Body(2, 3), 6, FULL, 4),
    (Body(2, 2), 6, HELD, 6),
    (Body(2, 1), 6, FULL, 6),
    (Body(2, 1), 7, HELD, 7),
    // With a lower bound than is held, only what adds bytes comes back.
    (Body(2, 1), 3, FULL, 7),
    (Body(2, 0), 3, HELD, 7),
    (Body(3, 5), 3, UNEXPECTED_BODY, 7),
    // A body that completes its message is taken. (Each body of a step begins anew.)
    (Body(2, 2), 3, OTHER_BODY, 4),
    (Body(1, 1), 0, OTHER_BODY, 0),
];

/// The number of what becomes of a frame.
fn taken(taken: Taken) -> u8 {
    match taken {
        Taken::Pushed(outcome) => number(outcome, b"hello"),
        Taken::Full(frame) => {
            let_go(frame);
            FULL
        }
    }
}

/// Pushes the frame of a step within a bound.
fn pushed_within(
    alloc: Global,
    assembler: &mut BoundedAssembler,
    step: Step,
    bound: u64,
) -> Result<u8, ParserError> {
    let frame = frame(alloc, step)?;
    let outcome = assembler.push_within(bound, frame)?;
    Ok(taken(outcome))
}

/// Pushes all frames, and forgets a channel with a part of a message.
fn push_all(alloc: Global, assembler: &mut BoundedAssembler) -> Result<(), Fail> {
    for (step, bound, wanted, held) in ROWS {
        let outcome = pushed_within(alloc, assembler, *step, *bound)?;
        same(outcome, *wanted)?;
        same(assembler.held(), *held)?;
    }
    for step in [Publish(4), Header(4, 60, 5), Body(4, 3)] {
        same(pushed_within(alloc, assembler, step, 3)?, HELD)?;
    }
    same(assembler.held(), 3)?;
    assembler.forget(4);
    same(assembler.held(), 0)
}

#[test]
fn what_is_held_has_a_bound(rt: HostRuntime) -> Result<(), Fail> {
    let mut assembler = BoundedAssembler::open(rt.alloc(), 5);
    let answer = push_all(rt.alloc(), &mut assembler);
    let_go(assembler);
    answer
}
