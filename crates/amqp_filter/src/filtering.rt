//! Streams of which the messages and frames that rules keep are written.

ghost use Rattle.std.specs.Prelude.{◌≢◌, ◌⊎◌, Err};
ghost use Rattle.amqp_select.specs.Matching.{decides};
ghost use Rattle.amqp_stream.specs.Changes.{◌⇒◌};
ghost use Rattle.amqp_stream.specs.Calls.{call_of};
ghost use Rattle.amqp_stream.specs.Causes.{NeverBegan};
ghost use Rattle.amqp_stream.specs.Reports.{NeverBeganReport, unreported};
ghost use Rattle.amqp_filter.specs.Filtering.{FilterReport, FilterRun};

use crate::message_filter::MessageFilter;
use amqp_in_turn::{TurnError as FilterError, as_turned_report};
use amqp_select::Rules;
use amqp_stream::{RunReport, Sink, Source, StreamError, run_stream_reported, unreported};
use amqp_turns::ContentFault;
use amqp_types::ChunkSize;
use std::alloc::Global;

/// Writes the canonical bytes of the messages whose openings rules keep, and of each other frame that they keep. All
/// others are read and decoded all the same. It goes on to the end of input, the first frame that is not in turn, or an
/// error, and reports where that is: where the input ends inside a message, with the least channel on which one is open.
/// Each read takes one of the read budget. No body is held, of whatever size.
pub fn filter_reported<S: Source, K: Sink>(
    alloc: Global,
    rules: &Rules,
    source: &mut S,
    sink: &mut K,
    max_payload: ChunkSize,
    budget: u64,
) -> Result<(), RunReport<FilterError>>
    ensures run { FilterReport (decides rules.now) S.supply K.store
        (call_of max_payload budget (source.old ⇒ source.new) (sink.old ⇒ sink.new)) result
        ⊎ NeverBeganReport (source.old ⇒ source.new)
        (sink.old ⇒ sink.new) (FilterError.Stream StreamError.NoMemory) result }
    ensures never_untidy { unreported result ≢ Err (FilterError.Stream StreamError.NotTidy) }
    ensures never_too_large { unreported result
        ≢ Err (FilterError.BadContent ContentFault.BodyTooLarge) }
    ensures never_faulted { unreported result ≢ Err (FilterError.BadContent ContentFault.Faulted) }
{
    let mut writer = MessageFilter::new(alloc, rules);
    let run = run_stream_reported(alloc, &mut writer, source, sink, max_payload, budget);
    as_turned_report(run)
}

/// The same, without where it ended.
pub fn filter<S: Source, K: Sink>(
    alloc: Global,
    rules: &Rules,
    source: &mut S,
    sink: &mut K,
    max_payload: ChunkSize,
    budget: u64,
) -> Result<(), FilterError>
    ensures run { FilterRun (decides rules.now) S.supply K.store
        (call_of max_payload budget (source.old ⇒ source.new) (sink.old ⇒ sink.new)) result
        ⊎ NeverBegan (source.old ⇒ source.new)
        (sink.old ⇒ sink.new) (FilterError.Stream StreamError.NoMemory) result }
    ensures never_untidy { result ≢ Err (FilterError.Stream StreamError.NotTidy) }
    ensures never_too_large { result ≢ Err (FilterError.BadContent ContentFault.BodyTooLarge) }
    ensures never_faulted { result ≢ Err (FilterError.BadContent ContentFault.Faulted) }
{
    unreported(filter_reported(alloc, rules, source, sink, max_payload, budget))
}
