//! What a command prints for a text, made whole before it is written.

ghost use Rattle.std.specs.Prelude.{◌≡◌, ◌≢◌, ◌≤◌, ◌++◌, ◌∷◌, [], Err, IfOk, IfErr};
ghost use Rattle.std.specs.Char.{is_ascii_hexdigit};
ghost use Rattle.std.specs.List.{prefix_len};
ghost use Rattle.amqp_types.specs.Levels.{level_of};
ghost use Rattle.amqp_stream.specs.Reports.{unreported};
ghost use Rattle.amqp_stream.specs.Writing.{AsksTidy};
ghost use Rattle.amqp_program.specs.Reports.{max_payload, printed_of, printed, report, report_at};
ghost use Rattle.amqp_program.specs.Reports.{IsAnswerWithin};
ghost use Rattle.amqp_program.specs.HexPlaces.{IsReportIn, IsPlaceIn, IsHexPlace, decoded_place};
ghost use Rattle.hex.specs.Hex.{encode_lower};

use crate::outcome::{Outcome, Place, in_text, placeless};
use amqp_stream::{Codec, RunReport, SliceSource, StreamError, VecSink};
use amqp_types::{ChunkSize, NoMemory, Profile};
use std::alloc::Global;

/// The limit on payloads, in bytes.
pub const MAX_PAYLOAD: ChunkSize = 131_072;

/// What is printed, and how the run ends that prints it.
#[derive(Drop)]
pub struct Report {
    /// The bytes that are printed, which are ASCII.
    pub text: Vec<u8>,

    /// The exit status, and where the first fault is.
    pub outcome: Outcome,
}

/// Canonicalizes bytes in memory: the sink that took what was written, and how and where it ended.
fn canonical(
    alloc: Global,
    profile: Profile,
    bytes: &[u8],
) -> Result<(VecSink, Result<(), RunReport<StreamError>>), NoMemory>
    ensures answer { IfOk result (λ r.
        IsAnswerWithin max_payload (level_of profile)
        bytes.now r.0.bytes (unreported r.1)) }
    ensures memory { IfOk result (λ r. unreported r.1 ≢ Err StreamError.NoMemory) }
    ensures untidy { IfOk result
        (λ r. unreported r.1 ≡ Err StreamError.NotTidy → AsksTidy (level_of profile)) }
    ensures place { IfOk result (λ r. IfErr r.1 (IsReportIn (level_of profile) bytes.now)) }
{
    let mut source = SliceSource::new(bytes);
    let mut sink = VecSink::new(alloc);
    let mut codec = Codec::open(alloc, MAX_PAYLOAD)?;
    let budget = bytes.len() as u64 + 1;
    let answer = codec.rewrite_reported(profile, &mut source, &mut sink, budget);
    Ok((sink, answer))
}

/// The lower-case hex of what was written, and then the name of what ended it.
#[tactic(auto, using(crate::proofs::Statuses::greatest))]
fn report_with(
    alloc: Global,
    written: &[u8],
    answer: Result<(), RunReport<StreamError>>,
) -> Result<Report, NoMemory>
    ensures printed { IfOk result
        (λ r. printed_of r ≡ printed (encode_lower written.now ++ 10 ∷ []) (unreported answer)) }
    ensures place { IfOk result (λ r. r.outcome.place ≡ decoded_place answer) }
    ensures few { IfOk result (λ r. 23 ≤ r.outcome.status
        → (r.outcome.status ≡ 23) × (unreported answer ≡ Err StreamError.NotTidy)) }
{
    let digits = hex::encode(alloc, written)?;
    let mut text = Vec::from_slice(alloc, digits.as_bytes())?;
    text.push(10)?;
    match answer {
        Ok(()) => Ok(Report {
            text,
            outcome: placeless(0),
        }),
        Err(report) => {
            text.extend_from_slice(report.error.name().as_bytes())?;
            text.push(10)?;
            let place = Place::Decoded {
                at: report.place,
                channel: report.channel,
            };
            Ok(Report {
                text,
                outcome: Outcome {
                    status: report.error.status(),
                    place: Some(place),
                },
            })
        }
    }
}

/// The report on decoded bytes.
#[tactic(auto, using(crate::proofs::HexRuns::in_bytes), unfolding(crate::specs::Reports::report_at))]
fn report_on(alloc: Global, profile: Profile, bytes: &[u8]) -> Result<Report, NoMemory>
    ensures report { IfOk result (λ r. printed_of r ≡ report_at (level_of profile) bytes.now) }
    ensures place { IfOk result (λ r. IsPlaceIn (level_of profile) bytes.now r.outcome) }
    ensures few { IfOk result
        (λ r. 23 ≤ r.outcome.status → (r.outcome.status ≡ 23) × AsksTidy (level_of profile)) }
{
    let (sink, answer) = canonical(alloc, profile, bytes)?;
    match answer {
        Err(
            RunReport {
                error: StreamError::WriteFault,
                ..
            },
        ) => Err(NoMemory),
        Err(
            RunReport {
                error: StreamError::ReadFault,
                ..
            },
        ) => Err(NoMemory),
        Err(
            RunReport {
                error: StreamError::TurnsSpent,
                ..
            },
        ) => Err(NoMemory),
        answer => report_with(alloc, sink.bytes(), answer),
    }
}

/// The number of hex digits in front.
fn count_digits(text: &[u8]) -> usize
    ensures { result ≡ prefix_len is_ascii_hexdigit text.now }
{
    text.iter()
        .take_while(|byte| byte.is_ascii_hexdigit())
        .count()
}

/// The report on a hex text, read in a profile.
#[tactic(auto, using(crate::proofs::HexRuns::hex_placed, crate::proofs::HexRuns::bad_hex_placed))]
pub fn report_of(alloc: Global, profile: Profile, text: &[u8]) -> Result<Report, NoMemory>
    ensures report { IfOk result (λ r. printed_of r ≡ report (level_of profile) text.now) }
    ensures place { IfOk result
        (λ r. IsHexPlace (level_of profile) text.now r.outcome.status r.outcome.place) }
    ensures few { IfOk result
        (λ r. 23 ≤ r.outcome.status → (r.outcome.status ≡ 23) × AsksTidy (level_of profile)) }
{
    let digits = match text {
        [digits @ .., 10] => digits,
        _ => text,
    };
    match hex::decode(alloc, digits) {
        Ok(bytes) => report_on(alloc, profile, bytes.as_slice()),
        Err(hex::FromHexError::OutOfMemory) => Err(NoMemory),
        Err(_) => {
            let text = Vec::from_slice(alloc, b"BadHex\n")?;
            Ok(Report {
                text,
                outcome: in_text(7, count_digits(digits)),
            })
        }
    }
}
