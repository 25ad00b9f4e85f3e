//! Why a stream whose frames have to be in turn was not written to its end.

ghost use Rattle.std.specs.Prelude.{◌≡◌};
ghost use Rattle.amqp_in_turn.specs.Errors.{as_turned};
ghost use Rattle.amqp_in_turn.specs.Reports.{as_turned_report, named_channel};

use amqp_stream::{RunError, RunReport, StreamError};
use amqp_turns::ContentFault;
use amqp_types::ChannelId;
use std::error::Error;
use std::fmt;

/// Why a stream whose frames have to be in turn was not written to its end.
#[derive(Clone, Copy, Debug, PartialEq, Eq)]
pub enum TurnError {
    /// The stream ended early.
    Stream(StreamError),

    /// The next frame is not in turn on its channel. All frames before it are written.
    BadContent(ContentFault),

    /// The input ended between two frames, inside a message. A report names the least channel on which one is open.
    OpenContent,
}

impl TurnError {
    ghost use Rattle.std.specs.Prelude.{◌≡◌};
    ghost use Rattle.amqp_in_turn.specs.Errors.{turn_error_name, turn_error_status};

    /// The variant's name, and of a stream's error the name of that.
    pub fn name(&self) -> &'static str
        ensures { result.now ≡ turn_error_name self.now }
    {
        match self {
            TurnError::Stream(error) => error.name(),
            TurnError::BadContent(_) => "BadContent",
            TurnError::OpenContent => "OpenContent",
        }
    }

    /// The exit status of a program that ends with it.
    pub fn status(&self) -> u8
        ensures { result ≡ turn_error_status self.now }
    {
        match self {
            TurnError::Stream(error) => error.status(),
            TurnError::BadContent(_) => 24,
            TurnError::OpenContent => 25,
        }
    }
}

impl fmt::Display for TurnError {
    ghost use Rattle.std.specs.Prelude.{Some};
    ghost use Rattle.amqp_in_turn.specs.Errors.{turn_error_name};

    ghost output = { λ error. Some (turn_error_name error) };

    fn fmt<W: fmt::Write>(&self, f: &mut fmt::Formatter<W>) -> fmt::Result {
        f.write_str(self.name())
    }
}

impl Error for TurnError {}

/// Why a frame is refused, or the end of input.
#[derive(Clone, Copy, Debug, PartialEq, Eq)]
pub enum Refusal {
    /// The frame is not in turn on its channel.
    BadContent(ContentFault),

    /// The input ends inside a message: the least channel on which one is open.
    OpenContent(ChannelId),
}

impl From<StreamError> for TurnError {
    ghost use Rattle.std.specs.Prelude.{◌≡◌};
    ghost use Rattle.amqp_in_turn.specs.declared.errors.TurnError.TheVariants as errors;

    ghost from_gives = { λ stream error. error ≡ errors.Stream stream };

    fn from(error: StreamError) -> TurnError {
        TurnError::Stream(error)
    }
}

impl From<RunError<Refusal>> for TurnError {
    ghost use Rattle.std.specs.Prelude.{◌≡◌};
    ghost use Rattle.amqp_in_turn.specs.Errors.{turn_error};

    ghost from_gives = { λ run error. error ≡ turn_error run };

    fn from(error: RunError<Refusal>) -> TurnError {
        match error {
            RunError::Stream(error) => TurnError::Stream(error),
            RunError::Refused(Refusal::BadContent(fault)) => TurnError::BadContent(fault),
            RunError::Refused(Refusal::OpenContent(_)) => TurnError::OpenContent,
        }
    }
}

/// What a run returns, with its error as one of these.
pub fn as_turned(answer: Result<(), RunError<Refusal>>) -> Result<(), TurnError>
    ensures { result ≡ as_turned answer }
{
    match answer {
        Ok(()) => Ok(()),
        Err(error) => Err(TurnError::from(error)),
    }
}

/// The channel that a report names: of the frame that comes next, or of a message that is open at the end of input.
fn named_channel(error: &RunError<Refusal>, next: Option<ChannelId>) -> Option<ChannelId>
    ensures { result ≡ named_channel error.now next }
{
    match error {
        RunError::Refused(Refusal::OpenContent(channel_id)) => Some(*channel_id),
        RunError::Refused(Refusal::BadContent(_)) => next,
        RunError::Stream(_) => next,
    }
}

/// What a run returns and reports, with its error as one of these.
pub fn as_turned_report(
    answer: Result<(), RunReport<RunError<Refusal>>>,
) -> Result<(), RunReport<TurnError>>
    ensures { result ≡ as_turned_report answer }
{
    match answer {
        Ok(()) => Ok(()),
        Err(report) => {
            let channel = named_channel(&report.error, report.channel);
            Err(RunReport {
                error: TurnError::from(report.error),
                place: report.place,
                channel,
            })
        }
    }
}
