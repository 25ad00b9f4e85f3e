//! Borrowed frames whose payloads are whole, which other calls require.

ghost use Rattle.std.specs.Prelude.{IfOk, IsOk};
ghost use Rattle.amqp_frame.specs.Frames.{raw_of};
ghost use Rattle.amqp_frame.specs.Verdicts.{decode_raw};

use amqp_frame::{AMQPRawFrame, parse_payload, release};
use std::alloc::Global;
use std::test::Fail;

/// Fails unless the payload is a frame.
pub fn is_whole(alloc: Global, raw: AMQPRawFrame<'_>) -> Result<(), Fail>
    ensures { IfOk result (λ done. IsOk (decode_raw (raw_of raw.entry))) }
{
    let frame = parse_payload(alloc, raw)?;
    release(frame);
    Ok(())
}
