//! Memory that runs out: `rt try --test --fail-alloc N` lets the Nth allocation of each test fail.

use crate::frames::Step::{self, Read};
use crate::frames::{BODY, HEADER, HELD, HELLO, PUBLISH, PUBLISHED, let_go, pushed};
use crate::outcomes::done_is_copied;
use crate::splitting::{copies, split_by_two};
use amqp_content::Assembler;
use amqp_types::ParserError;
use amqp_vectors::asking::same;
use std::alloc::Global;
use std::test::Fail;

/// A body on channel 2, where no message was opened.
const STRAY: [u8; 9] = [3, 0, 2, 0, 0, 0, 1, 7, 206];

/// A client's message, with frames of a channel that is faulted in between, and what becomes of each.
const FRAMES: &[(Step, u8)] = &[
    (Read(&PUBLISH), HELD),
    (Read(&STRAY), 3),
    (Read(&HEADER), HELD),
    (Read(&STRAY), 7),
    (Read(&BODY), PUBLISHED),
];

/// The message alone.
const MESSAGE: [Step; 3] = [Read(&PUBLISH), Read(&HEADER), Read(&BODY)];

/// Reads a frame and pushes it, and does so once more where memory ran out.
fn pushed_again(alloc: Global, assembler: &mut Assembler, step: Step) -> Result<u8, ParserError> {
    match pushed(alloc, assembler, step, &HELLO) {
        Err(ParserError::NoMemory) => pushed(alloc, assembler, step, &HELLO),
        number => number,
    }
}

/// Fails unless each frame is taken, at the second time at the latest.
fn are_taken(alloc: Global, assembler: &mut Assembler) -> Result<(), Fail> {
    for (step, wanted) in FRAMES {
        same(pushed_again(alloc, assembler, *step)?, *wanted)?;
    }
    Ok(())
}

/// Where memory runs out all channels are as before: an equal frame is taken as the first one would have been.
#[test]
fn refused_memory_leaves_channels(rt: HostRuntime) -> Result<(), Fail> {
    let mut assembler = Assembler::open(rt.alloc(), 5);
    let answer = are_taken(rt.alloc(), &mut assembler);
    let_go(assembler);
    answer
}

/// The length of a list of anything, for a caller that does not own it.
fn count<T: Drop>(list: Vec<T>) -> usize {
    list.len()
}

/// How many frames the message is split into.
fn parts(alloc: Global) -> Result<usize, ParserError> {
    Ok(count(split_by_two(alloc, &MESSAGE)?))
}

/// A message is split and copied as a whole, or memory is refused.
#[test]
fn refused_memory_leaves_no_part(rt: HostRuntime) -> Result<(), Fail> {
    match parts(rt.alloc()) {
        Err(error) => same(error, ParserError::NoMemory)?,
        Ok(count) => same(count, 5)?,
    }
    match copies(rt.alloc(), &MESSAGE) {
        Err(error) => same(error, ParserError::NoMemory),
        Ok(copied) => same(copied, true),
    }
}

/// An outcome is copied as a whole, or memory is refused.
#[test]
fn refused_memory_leaves_no_part_of_an_outcome(rt: HostRuntime) -> Result<(), Fail> {
    match done_is_copied(rt.alloc()) {
        Err(error) => same(error, ParserError::NoMemory),
        Ok(copied) => same(copied, true),
    }
}
