//! Canonicalizes bytes, by the codec or by its borrowed form.

ghost use Rattle.std.specs.Prelude.{◌<◌};
ghost use Rattle.amqp_program.specs.Reporting.{ReportsRaw};

use crate::outcome::{Outcome, streamed};
use crate::report::MAX_PAYLOAD;
use amqp_lent::canonicalize_lent_reported;
use amqp_stream::{Sink, Source, canonicalize_reported};
use std::alloc::Global;

/// The most reads that are made: 2^40.
pub const RAW_BUDGET: u64 = 1_099_511_627_776;

/// Canonicalizes bytes.
#[tactic(auto, using(crate::proofs::Statuses::streamed_below_23))]
pub fn run_raw<S: Source, K: Sink>(alloc: Global, source: &mut S, sink: &mut K) -> Outcome
    ensures run { ReportsRaw (S.supply source.old) (S.supply source.new)
        (K.store sink.old) (K.store sink.new) result }
    ensures few { result.status < 23 }
{
    streamed(canonicalize_reported(alloc, source, sink, MAX_PAYLOAD, RAW_BUDGET))
}

/// The same by borrowed frames, which take memory only before the first read.
#[tactic(auto, using(crate::proofs::Statuses::streamed_below_23))]
pub fn run_lent<S: Source, K: Sink>(alloc: Global, source: &mut S, sink: &mut K) -> Outcome
    ensures run { ReportsRaw (S.supply source.old) (S.supply source.new)
        (K.store sink.old) (K.store sink.new) result }
    ensures few { result.status < 23 }
{
    streamed(canonicalize_lent_reported(alloc, source, sink, MAX_PAYLOAD, RAW_BUDGET))
}
