//! Reports: how a run ended early, and where.

ghost use Rattle.std.specs.Prelude.{◌≡◌};
ghost use Rattle.amqp_stream.specs.Reports.{IsAtStart, as_run_report, unreported};

use crate::errors::{RunError, StreamError};
use amqp_types::ChannelId;
use std::convert::Infallible;

/// How a run ended early, and where.
#[derive(Debug, Drop)]
pub struct RunReport<E> {
    /// Why it ended.
    pub error: E,

    /// How many bytes the whole frames in front have, as they came. The next frame begins there. The count stays at its last
    /// value, 2^64 - 1.
    pub place: u64,

    /// The channel of that frame, where its header was read; a protocol header has none.
    pub channel: Option<ChannelId>,
}

impl<E> RunReport<E> {
    /// The report where memory ran out before anything was read.
    pub fn at_start(error: E) -> RunReport<E>
        ensures error { result.error ≡ error }
        ensures start { IsAtStart result }
    {
        RunReport {
            error,
            place: 0,
            channel: None,
        }
    }
}

/// The result of a run, without where it ended.
pub fn unreported<E>(answer: Result<(), RunReport<E>>) -> Result<(), E>
    ensures { result ≡ unreported answer }
{
    match answer {
        Ok(()) => Ok(()),
        Err(report) => Err(report.error),
    }
}

/// The report of a run in which nothing is refused.
pub fn unrefused_report(
    answer: Result<(), RunReport<RunError<Infallible>>>,
) -> Result<(), RunReport<StreamError>>
    ensures { answer ≡ as_run_report result }
{
    match answer {
        Ok(()) => Ok(()),
        Err(report) => {
            let (place, channel) = (report.place, report.channel);
            match report.error {
                RunError::Stream(error) => Err(RunReport {
                    error,
                    place,
                    channel,
                }),
                RunError::Refused(never) => match never {},
            }
        }
    }
}
