//! Writes frames as lines of text.

ghost use Rattle.std.specs.Prelude.{◌<◌};
ghost use Rattle.amqp_program.specs.Reporting.{ReportsDump};

use crate::outcome::{Outcome, streamed};
use crate::raw_command::RAW_BUDGET;
use crate::report::MAX_PAYLOAD;
use amqp_lines::dump_reported;
use amqp_stream::{Sink, Source};
use std::alloc::Global;

/// Writes the line of each frame.
#[tactic(auto, using(crate::proofs::Statuses::streamed_below_23))]
pub fn run_dump<S: Source, K: Sink>(alloc: Global, source: &mut S, sink: &mut K) -> Outcome
    ensures run { ReportsDump (S.supply source.old) (S.supply source.new)
        (K.store sink.old) (K.store sink.new) result }
    ensures few { result.status < 23 }
{
    streamed(dump_reported(alloc, source, sink, MAX_PAYLOAD, RAW_BUDGET))
}
