//! Streams whose messages have their bodies cut anew.

ghost use Rattle.std.specs.Prelude.{◌≢◌, ◌⊎◌, ◌≤◌, Err};
ghost use Rattle.amqp_stream.specs.Changes.{◌⇒◌};
ghost use Rattle.amqp_stream.specs.Calls.{call_of};
ghost use Rattle.amqp_stream.specs.Causes.{NeverBegan};
ghost use Rattle.amqp_stream.specs.Reports.{NeverBeganReport, unreported};
ghost use Rattle.amqp_recut.specs.Recutting.{RecutReport, RecutRun};

use crate::recutter::Recutter;
use amqp_in_turn::{TurnError as RecutError, as_turned_report};
use amqp_stream::{RunReport, Sink, Source, StreamError, run_stream_reported, unreported};
use amqp_turns::ContentFault;
use amqp_types::ChunkSize;
use std::alloc::Global;

/// Writes the canonical bytes of a stream's frames, with the bodies of messages cut into body frames of `size` bytes,
/// the last of a message shorter. It goes on to the end of input, the first frame that is not in turn, or an error, and
/// reports where that is: where the input ends inside a message, with the least channel on which one is open. Each read
/// takes one of the read budget. Of each message that is not complete, fewer than `size` bytes are held.
pub fn recut_reported<S: Source, K: Sink>(
    alloc: Global,
    source: &mut S,
    sink: &mut K,
    max_payload: ChunkSize,
    size: u32,
    budget: u64,
) -> Result<(), RunReport<RecutError>>
    requires some { 1 ≤ size }
    requires fits { size ≤ max_payload }
    ensures run { RecutReport size S.supply K.store
        (call_of max_payload budget (source.old ⇒ source.new) (sink.old ⇒ sink.new)) result
        ⊎ NeverBeganReport (source.old ⇒ source.new)
        (sink.old ⇒ sink.new) (RecutError.Stream StreamError.NoMemory) result }
    ensures never_untidy { unreported result ≢ Err (RecutError.Stream StreamError.NotTidy) }
    ensures never_too_large { unreported result
        ≢ Err (RecutError.BadContent ContentFault.BodyTooLarge) }
    ensures never_faulted { unreported result ≢ Err (RecutError.BadContent ContentFault.Faulted) }
{
    let mut writer = Recutter::new(alloc, size);
    let run = run_stream_reported(alloc, &mut writer, source, sink, max_payload, budget);
    as_turned_report(run)
}

/// The same, without where it ended.
pub fn recut<S: Source, K: Sink>(
    alloc: Global,
    source: &mut S,
    sink: &mut K,
    max_payload: ChunkSize,
    size: u32,
    budget: u64,
) -> Result<(), RecutError>
    requires some { 1 ≤ size }
    requires fits { size ≤ max_payload }
    ensures run { RecutRun size S.supply K.store
        (call_of max_payload budget (source.old ⇒ source.new) (sink.old ⇒ sink.new)) result
        ⊎ NeverBegan (source.old ⇒ source.new)
        (sink.old ⇒ sink.new) (RecutError.Stream StreamError.NoMemory) result }
    ensures never_untidy { result ≢ Err (RecutError.Stream StreamError.NotTidy) }
    ensures never_too_large { result ≢ Err (RecutError.BadContent ContentFault.BodyTooLarge) }
    ensures never_faulted { result ≢ Err (RecutError.BadContent ContentFault.Faulted) }
{
    unreported(recut_reported(alloc, source, sink, max_payload, size, budget))
}
