//! Outcomes of each kind, copied and compared.

use crate::frames::Step::{self, Read};
use crate::frames::{BODY, HEADER, PUBLISH, let_go, message};
use amqp_content::{ContentFault, Outcome};
use amqp_frame::AMQPFrame;
use amqp_types::{NoMemory, ParserError};
use amqp_vectors::asking::same;
use std::alloc::Global;
use std::test::Fail;

/// Whether a deep copy of the outcome is equal to it.
fn is_copied(alloc: Global, outcome: Outcome) -> Result<bool, NoMemory> {
    let copied = outcome.copy(alloc);
    let is_copied = match &copied {
        Ok(copied) => Ok(*copied == outcome),
        Err(_) => Err(NoMemory),
    };
    let_go(copied);
    let_go(outcome);
    is_copied
}

/// The frames of a message.
const MESSAGE: [Step; 3] = [Read(&PUBLISH), Read(&HEADER), Read(&BODY)];

/// Whether the outcome of a message is copied.
pub fn done_is_copied(alloc: Global) -> Result<bool, ParserError> {
    match message(alloc, &MESSAGE)? {
        Some(message) => Ok(is_copied(alloc, Outcome::Done(message))?),
        None => Ok(false),
    }
}

#[test]
fn outcomes_are_copied(rt: HostRuntime) -> Result<(), Fail> {
    let alloc = rt.alloc();
    same(
        is_copied(alloc, Outcome::Passed(AMQPFrame::Heartbeat))?,
        true,
    )?;
    same(is_copied(alloc, Outcome::Held)?, true)?;
    same(
        is_copied(alloc, Outcome::Fault(ContentFault::UnexpectedBody))?,
        true,
    )?;
    same(done_is_copied(alloc)?, true)
}
