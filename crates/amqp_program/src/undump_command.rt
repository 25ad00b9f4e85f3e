//! Writes the canonical bytes of the frames of lines of text.

ghost use Rattle.std.specs.Prelude.{◌≡◌, ◌≤◌};
ghost use Rattle.amqp_program.specs.Reporting.{ReportsUndump};

use crate::outcome::{Outcome, undumped};
use crate::raw_command::RAW_BUDGET;
use crate::report::MAX_PAYLOAD;
use amqp_lines::undump_reported;
use amqp_stream::{Sink, Source};
use std::alloc::Global;

/// Writes the canonical bytes of the frame of each line.
#[tactic(auto, using(crate::proofs::Statuses::undump_statuses))]
pub fn run_undump<S: Source, K: Sink>(alloc: Global, source: &mut S, sink: &mut K) -> Outcome
    ensures run { ReportsUndump (S.supply source.old) (S.supply source.new)
        (K.store sink.old) (K.store sink.new) result }
    ensures few { 23 ≤ result.status → result.status ≡ 26 }
{
    undumped(undump_reported(alloc, source, sink, MAX_PAYLOAD, RAW_BUDGET))
}
