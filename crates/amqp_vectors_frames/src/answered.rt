//! A frame is answered, and one that is cut short is refused.

use crate::answering::{AnswerError, answer};
use amqp_frame::ParserError;
use amqp_vectors::asking::same;
use std::test::Fail;

#[test]
fn a_channel_that_is_closed_is_answered(rt: HostRuntime) -> Result<(), Fail> {
    let alloc = rt.alloc();
    let mut out = Vec::new(alloc);
    let close = [
        1, 0, 3, 0, 0, 0, 11, 0, 20, 0, 40, 0, 200, 0, 0, 0, 0, 0, 206, 8,
    ];
    same(answer(alloc, &close, &mut out), Ok(19))?;
    same(out.as_slice(), &[1, 0, 3, 0, 0, 0, 4, 0, 20, 0, 41, 206])?;
    same(
        answer(alloc, &close[19..], &mut out),
        Err(AnswerError::Parse(ParserError::Incomplete)),
    )
}
