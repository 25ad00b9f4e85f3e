//! Canonicalizes bytes, and cuts the bodies of messages anew.

ghost use Rattle.std.specs.Prelude.{◌≡◌, ◌⊎◌, ◌≤◌};
ghost use Rattle.amqp_program.specs.Reports.{max_payload};
ghost use Rattle.amqp_program.specs.Reporting.{ReportsRecut};

use crate::outcome::{Outcome, turned};
use crate::raw_command::RAW_BUDGET;
use crate::report::MAX_PAYLOAD;
use amqp_recut::recut_reported;
use amqp_stream::{Sink, Source};
use std::alloc::Global;

/// Writes the canonical bytes of frames, with the bodies of messages cut into bodies of so many bytes.
#[tactic(auto, using(crate::proofs::Statuses::own_statuses))]
pub fn run_recut<S: Source, K: Sink>(
    alloc: Global,
    size: u32,
    source: &mut S,
    sink: &mut K,
) -> Outcome
    requires some { 1 ≤ size }
    requires fits { size ≤ max_payload }
    ensures run { ReportsRecut size (S.supply source.old)
        (S.supply source.new) (K.store sink.old) (K.store sink.new) result }
    ensures few { 23 ≤ result.status → (result.status ≡ 24) ⊎ (result.status ≡ 25) }
{
    turned(recut_reported(alloc, source, sink, MAX_PAYLOAD, size, RAW_BUDGET))
}
