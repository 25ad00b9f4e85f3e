//! How runs end: an exit status, and where what ended one is.

ghost use Rattle.std.specs.Prelude.{◌≡◌, Some, None};
ghost use Rattle.amqp_program.specs.declared.outcome.Place.TheVariants as places;
ghost use Rattle.amqp_program.specs.Outcomes.{streamed, turned, undumped};

use amqp_in_turn::TurnError;
use amqp_lines::UndumpReport;
use amqp_stream::{RunReport, StreamError};
use amqp_types::ChannelId;

/// What may stand at a place among the arguments.
#[derive(Clone, Copy, Debug)]
pub enum Expected {
    /// A command.
    Command,

    /// A number of frames.
    Frames,

    /// A size of bodies.
    Size,

    /// A rule.
    Rule,

    /// Nothing: the arguments before it are complete.
    Nothing,
}

/// The first argument that is at fault. Where the arguments end too early, it is the one that is missing.
#[derive(Clone, Copy, Debug)]
pub struct ArgumentFault {
    /// Its place after the program's name, from 0 on.
    pub index: usize,

    /// What may stand there.
    pub expected: Expected,

    /// Where in it the part of a rule begins that is at fault; 0 where no rule is expected, or none is there.
    pub part: usize,
}

/// An argument that is at fault as a whole.
pub fn whole(index: usize, expected: Expected) -> ArgumentFault
    ensures { result ≡ record { index = index; expected = expected; part = 0 } }
{
    ArgumentFault {
        index,
        expected,
        part: 0,
    }
}

/// Where what ended a run is.
#[derive(Clone, Copy, Debug)]
pub enum Place {
    /// In the input, after so many bytes of whole frames, and on the channel of the frame that begins there. A protocol
    /// header has none, nor has a frame whose header was not read. Where the input ends inside a message, it is the least
    /// channel on which one is open.
    Input {
        /// How many bytes these frames have, as they came.
        at: u64,

        /// The channel.
        channel: Option<ChannelId>,
    },

    /// The same in the bytes that a hex text decodes to.
    Decoded {
        /// How many bytes these frames have.
        at: u64,

        /// The channel.
        channel: Option<ChannelId>,
    },

    /// In a text, after so many of its bytes.
    Text {
        /// How many bytes.
        at: u64,
    },

    /// At a line of a text, which begins after so many of its bytes.
    Line {
        /// The number of the line, from 1 on.
        number: u64,

        /// How many bytes.
        at: u64,
    },

    /// At an argument.
    Argument(ArgumentFault),
}

/// How a run ended.
#[derive(Clone, Copy, Debug)]
pub struct Outcome {
    /// The exit status.
    pub status: u8,

    /// Where what ended it is, where that is known.
    pub place: Option<Place>,
}

/// Memory ran out before anything was read.
pub const OUT_OF_MEMORY: Outcome = Outcome {
    status: 3,
    place: Some(Place::Input {
        at: 0,
        channel: None,
    }),
};

/// A run that ended with this status, of which no place is known.
pub fn placeless(status: u8) -> Outcome
    ensures { result ≡ record { status = status; place = None } }
{
    Outcome {
        status,
        place: None,
    }
}

/// A run that ended with this status after so many bytes of a text.
pub fn in_text(status: u8, at: usize) -> Outcome
    ensures { result ≡ record { status = status; place = Some (places.Text at) } }
{
    Outcome {
        status,
        place: Some(Place::Text { at: at as u64 }),
    }
}

/// The outcome of a stream, by its result.
pub fn streamed(answer: Result<(), RunReport<StreamError>>) -> Outcome
    ensures { result ≡ streamed answer }
{
    match answer {
        Ok(()) => placeless(0),
        Err(report) => Outcome {
            status: report.error.status(),
            place: Some(Place::Input {
                at: report.place,
                channel: report.channel,
            }),
        },
    }
}

/// The same where frames have to be in turn.
pub fn turned(answer: Result<(), RunReport<TurnError>>) -> Outcome
    ensures { result ≡ turned answer }
{
    match answer {
        Ok(()) => placeless(0),
        Err(turn) => Outcome {
            status: turn.error.status(),
            place: Some(Place::Input {
                at: turn.place,
                channel: turn.channel,
            }),
        },
    }
}

/// The same where lines are read back.
pub fn undumped(answer: Result<(), UndumpReport>) -> Outcome
    ensures { result ≡ undumped answer }
{
    match answer {
        Ok(()) => placeless(0),
        Err(report) => Outcome {
            status: report.error.status(),
            place: Some(Place::Line {
                number: report.line,
                at: report.place,
            }),
        },
    }
}
