//! Writers of canonical bytes: for whatever can be read, and for tidy frames alone.

ghost use Rattle.std.specs.Prelude.{◌≡◌};
ghost use Rattle.amqp_stream.specs.Streaming.{as_run};

use crate::decision::Decision;
use crate::errors::{RunError, StreamError};
use crate::frame_decider::FrameDecider;
use crate::output::payload_error;
use amqp_wire::{AMQPRawFrame, judge_frame};
use std::convert::Infallible;

/// The result of a stream, as one of a run.
pub fn as_run<R>(answer: Result<(), StreamError>) -> Result<(), RunError<R>>
    ensures { result ≡ as_run answer }
{
    match answer {
        Ok(()) => Ok(()),
        Err(error) => Err(RunError::Stream(error)),
    }
}

/// The result of a run in which nothing is refused.
pub fn unrefused(answer: Result<(), RunError<Infallible>>) -> Result<(), StreamError>
    ensures { answer ≡ as_run result }
{
    match answer {
        Ok(()) => Ok(()),
        Err(RunError::Stream(error)) => Err(error),
        Err(RunError::Refused(never)) => match never {},
    }
}

/// Writes the canonical bytes of each frame.
#[derive(Drop)]
pub struct Canonical;

impl FrameDecider for Canonical {
    ghost use Rattle.amqp_types.specs.Levels.{plain};
    ghost use Rattle.amqp_stream.specs.Manners.{canonical_at};

    type Refusal = Infallible;

    ghost manner = { canonical_at plain };

    #[inline(always)]
    fn decide(&mut self, raw: AMQPRawFrame<'_>) -> Result<Decision, RunError<Infallible>> {
        match judge_frame(raw) {
            Ok(judged) => Ok(Decision::Kept(judged)),
            Err(error) => Err(RunError::Stream(payload_error(error))),
        }
    }

    // As the provided method, which the compiler would leave a call.
    #[inline(always)]
    fn pass_decided(
        &mut self,
        raw: AMQPRawFrame<'_>,
    ) -> Result<Option<Decision>, RunError<Infallible>> {
        match self.decide(raw) {
            Ok(decision) => Ok(Some(decision)),
            Err(error) => Err(error),
        }
    }

    fn finish(&self) -> Result<(), Infallible> {
        Ok(())
    }
}

/// Writes the canonical bytes of each frame, and takes tidy frames alone.
#[derive(Drop)]
pub struct TidyCanonical;

impl FrameDecider for TidyCanonical {
    ghost use Rattle.amqp_types.specs.Levels.{tidy};
    ghost use Rattle.amqp_stream.specs.Manners.{canonical_at};

    type Refusal = Infallible;

    ghost manner = { canonical_at tidy };

    #[inline(always)]
    fn decide(&mut self, raw: AMQPRawFrame<'_>) -> Result<Decision, RunError<Infallible>> {
        match judge_frame(raw) {
            Ok(judged) if judged.tidy => Ok(Decision::Kept(judged)),
            Ok(_) => Err(RunError::Stream(StreamError::NotTidy)),
            Err(error) => Err(RunError::Stream(payload_error(error))),
        }
    }

    // As the provided method, which the compiler would leave a call.
    #[inline(always)]
    fn pass_decided(
        &mut self,
        raw: AMQPRawFrame<'_>,
    ) -> Result<Option<Decision>, RunError<Infallible>> {
        match self.decide(raw) {
            Ok(decision) => Ok(Some(decision)),
            Err(error) => Err(error),
        }
    }

    fn finish(&self) -> Result<(), Infallible> {
        Ok(())
    }
}
