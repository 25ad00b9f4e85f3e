//! Streams of which the frames that rules keep are written.

ghost use Rattle.std.specs.Prelude.{◌≡◌, ◌≢◌, ◌⊎◌, Ok, Err};
ghost use Rattle.amqp_stream.specs.Changes.{◌⇒◌};
ghost use Rattle.amqp_stream.specs.Calls.{call_of};
ghost use Rattle.amqp_stream.specs.Causes.{NeverBegan};
ghost use Rattle.amqp_stream.specs.Reports.{NeverBeganReport, unreported};
ghost use Rattle.amqp_wire.specs.Frames.{Frame, raw_of};
ghost use Rattle.amqp_wire.specs.Outlines.{outline_of};
ghost use Rattle.amqp_wire.specs.Verdicts.{decode_raw};
ghost use Rattle.amqp_select.specs.Matching.{decides};
ghost use Rattle.amqp_select.specs.Selecting.{SelectReport, SelectRun};

use crate::rules::Rules;
use amqp_stream::{
    Decision, FrameDecider, RunError, RunReport, Sink, Source, StreamError, canonicalize_reported,
    payload_error, run_stream_reported, unrefused_report, unreported,
};
use amqp_types::ChunkSize;
use amqp_wire::{AMQPRawFrame, judge_frame, outline_front};
use std::alloc::Global;
use std::convert::Infallible;

/// Writes the canonical bytes of each frame that rules keep. The others are decoded all the same.
#[derive(Drop)]
pub(crate) struct Selector<'a> {
    rules: &'a Rules,
}

impl<'a> Selector<'a> {
    /// Whether a borrowed frame is kept. Its payload is not decoded yet, so that one that is kept is decoded once, as
    /// it is written.
    fn keeps(&self, raw: AMQPRawFrame<'_>) -> bool
        ensures { (frame : Frame) → decode_raw (raw_of raw.entry) ≡ Ok frame
            → result ≡ decides self.now.rules.now (outline_of frame) }
    {
        if let Some(keep) = self.rules.decide_all() {
            return keep;
        }
        match outline_front(raw) {
            Some(outline) => self.rules.decide_outline(outline),
            None => false,
        }
    }
}

impl<'a> FrameDecider for Selector<'a> {
    ghost use Rattle.amqp_select.specs.Selecting.{selecting};

    type Refusal = Infallible;

    ghost manner = { selecting };

    /// What is written for a borrowed frame. One that is dropped is decoded all the same.
    #[inline(always)]
    fn decide(&mut self, raw: AMQPRawFrame<'_>) -> Result<Decision, RunError<Infallible>> {
        let keeps = self.keeps(raw);
        match judge_frame(raw) {
            Ok(judged) if keeps => Ok(Decision::Kept(judged)),
            Ok(_) => Ok(Decision::Dropped),
            Err(error) => Err(RunError::Stream(payload_error(error))),
        }
    }

    fn finish(&self) -> Result<(), Infallible> {
        Ok(())
    }
}

/// Writes the canonical bytes of the frames that rules keep of a stream, to the end of input or an error, and reports
/// where that is. The others are read and decoded all the same. Each read takes one of the read budget.
pub fn select_reported<S: Source, K: Sink>(
    alloc: Global,
    rules: &Rules,
    source: &mut S,
    sink: &mut K,
    max_payload: ChunkSize,
    budget: u64,
) -> Result<(), RunReport<StreamError>>
    ensures run { SelectReport rules.now S.supply K.store
        (call_of max_payload budget (source.old ⇒ source.new) (sink.old ⇒ sink.new)) result
        ⊎ NeverBeganReport (source.old ⇒ source.new)
        (sink.old ⇒ sink.new) StreamError.NoMemory result }
    ensures never_untidy { unreported result ≢ Err StreamError.NotTidy }
{
    // Where every frame is kept, no frame is looked at but by the canonicalizer.
    if let Some(true) = rules.decide_all() {
        return canonicalize_reported(alloc, source, sink, max_payload, budget);
    }
    let mut writer = Selector { rules };
    let run = run_stream_reported(alloc, &mut writer, source, sink, max_payload, budget);
    unrefused_report(run)
}

/// The same, without where it ended.
pub fn select<S: Source, K: Sink>(
    alloc: Global,
    rules: &Rules,
    source: &mut S,
    sink: &mut K,
    max_payload: ChunkSize,
    budget: u64,
) -> Result<(), StreamError>
    ensures run { SelectRun rules.now S.supply K.store
        (call_of max_payload budget (source.old ⇒ source.new) (sink.old ⇒ sink.new)) result
        ⊎ NeverBegan (source.old ⇒ source.new)
        (sink.old ⇒ sink.new) StreamError.NoMemory result }
    ensures never_untidy { result ≢ Err StreamError.NotTidy }
{
    unreported(select_reported(alloc, rules, source, sink, max_payload, budget))
}
