//! The commands over a hex text: `hex`, and `tidy`, which takes tidy frames alone.

ghost use Rattle.std.specs.Prelude.{◌≡◌, ◌≤◌};
ghost use Rattle.amqp_types.specs.Levels.{level_of};
ghost use Rattle.amqp_stream.specs.Writing.{AsksTidy};
ghost use Rattle.amqp_program.specs.Reporting.{ReportsHex};

use crate::outcome::{Outcome, in_text, placeless};
use crate::report::report_of;
use crate::text::{InputError, LONGEST_TEXT, read_text};
use amqp_stream::{Sink, Source, write_all};
use amqp_types::Profile;
use std::alloc::Global;

/// Canonicalizes the bytes of a hex text, read in a profile, and prints the report on it.
#[tactic(auto, using(crate::proofs::HexRuns::hex_done, crate::proofs::HexRuns::hex_write_fault, crate::proofs::HexRuns::hex_no_report))]
pub fn run_hex<S: Source, K: Sink>(
    alloc: Global,
    profile: Profile,
    source: &mut S,
    sink: &mut K,
) -> Outcome
    ensures report { ReportsHex (level_of profile) (S.supply source.old)
        (S.supply source.new) (K.store sink.old) (K.store sink.new) result }
    ensures few { 23 ≤ result.status → (result.status ≡ 23) × AsksTidy (level_of profile) }
{
    let text = match read_text(alloc, source) {
        Ok(text) => text,
        Err(InputError::ReadFault { after }) => return in_text(4, after),
        Err(InputError::TooLong) => return in_text(6, LONGEST_TEXT),
        Err(InputError::NoMemory) => return placeless(3),
    };
    let Ok(report) = report_of(alloc, profile, text.as_slice()) else {
        return placeless(3);
    };
    match write_all(sink, report.text.as_slice()) {
        Ok(()) => report.outcome,
        Err(_) => placeless(5),
    }
}
