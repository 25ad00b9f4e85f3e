//! What the program says on standard error of a run that did not end well.

use crate::outcome::{ArgumentFault, Expected, Outcome, Place};
use amqp_select::Rule;
use amqp_statuses::Status;
use amqp_types::ChannelId;
use std::{fmt, str};

/// The line for an outcome: the status by its name and number, where it is, and what it says.
#[derive(Drop)]
pub struct Message<'a> {
    /// How the run ended.
    pub outcome: Outcome,

    /// The words after the program's name.
    pub words: &'a [String],
}

/// What may stand at a place among the arguments.
fn text_of(expected: Expected) -> &'static str {
    match expected {
        Expected::Command => {
            "a command is hex, raw, tidy, lent, dump, undump, select, filter, recut, make, --help or --version"
        }
        Expected::Frames => "a number of frames is 0 to 100000, in decimal without leading zeros",
        Expected::Size => "a size is 1 to 131072, in decimal without leading zeros",
        Expected::Rule => {
            "a rule is keep or drop, and then any of ,channel=A or ,channel=A-B  ,kind=K  ,class=A  ,method=A in this order"
        }
        Expected::Nothing => "no argument may follow those before it",
    }
}

/// Whether this part may stand in a rule, after those that come before it in order.
fn is_part(part: &[u8]) -> bool {
    let mut rule = [0u8; 64];
    if part.len() > 59 {
        return false;
    }
    let end = part.len() + 5;
    rule[..5].copy_from_slice(b"keep,");
    rule[5..end].copy_from_slice(part);
    Rule::parse(&rule[..end]).is_some()
}

/// What is wrong with a part of a rule, and how it should be.
fn fault_of(part: &[u8]) -> &'static str {
    if is_part(part) {
        "is in the wrong place: the parts of a rule come in the order ,channel= ,kind= ,class= ,method= and each at most once"
    } else if part.starts_with(b"channel=") {
        "is no channel: in channel=A or channel=A-B, A and B are 0 to 65535, in decimal without leading zeros, and B is not below A"
    } else if part.starts_with(b"kind=") {
        "is no kind: in kind=K, K is proto, method, header, body or beat"
    } else if part.starts_with(b"class=") {
        "is no class: in class=A, A is 0 to 65535, in decimal without leading zeros"
    } else if part.starts_with(b"method=") {
        "is no method: in method=A, A is 0 to 65535, in decimal without leading zeros"
    } else {
        "is no part of a rule: a rule is keep or drop, and then any of ,channel= ,kind= ,class= ,method="
    }
}

/// The part of a word that begins at a place, up to the next comma.
fn part_at(word: &str, start: usize) -> &str {
    let bytes = word.as_bytes();
    let rest = bytes.get(start..).unwrap_or(bytes);
    let part = match rest.iter().position(|byte| *byte == b',') {
        Some(end) => rest.get(..end).unwrap_or(rest),
        None => rest,
    };
    str::from_utf8(part).unwrap_or("")
}

/// The argument that is at fault, and how it should be.
fn write_argument<W: fmt::Write>(
    f: &mut fmt::Formatter<W>,
    fault: ArgumentFault,
    words: &[String],
) -> fmt::Result {
    let number = fault.index.saturating_add(1);
    let wanted = text_of(fault.expected);
    let Some(word) = words.get(fault.index) else {
        return write!(f, " at argument {number}, which is missing: {wanted}");
    };
    let word = word.as_str();
    match fault.expected {
        Expected::Rule => {
            let part = part_at(word, fault.part);
            let what = fault_of(part.as_bytes());
            write!(f, " at argument {number}, {word:?}: {part:?} {what}")
        }
        // All other forms are shorter.
        Expected::Nothing if fault.index > 2 => {
            write!(
                f,
                " at argument {number}, {word:?}: at most 64 rules may stand"
            )
        }
        _ => write!(f, " at argument {number}, {word:?}: {wanted}"),
    }
}

/// Where the next frame begins, in some bytes.
fn write_frame<W: fmt::Write>(
    f: &mut fmt::Formatter<W>,
    at: u64,
    channel: Option<ChannelId>,
    bytes: &str,
) -> fmt::Result {
    match channel {
        Some(channel) => write!(f, " at byte {at}{bytes}, channel {channel}"),
        None => write!(f, " at byte {at}{bytes}"),
    }
}

impl Message<'_> {
    /// Where it is.
    fn write_place<W: fmt::Write>(&self, f: &mut fmt::Formatter<W>) -> fmt::Result {
        match self.outcome.place {
            None => Ok(()),
            Some(Place::Input { at, channel }) => write_frame(f, at, channel, ""),
            Some(Place::Decoded { at, channel }) => {
                write_frame(f, at, channel, " of the decoded bytes")
            }
            Some(Place::Text { at }) => write!(f, " at byte {at} of the text"),
            Some(Place::Line { number, at }) => {
                write!(f, " at line {number}, byte {at} of the text")
            }
            Some(Place::Argument(fault)) => write_argument(f, fault, self.words),
        }
    }
}

impl fmt::Display for Message<'_> {
    fn fmt<W: fmt::Write>(&self, f: &mut fmt::Formatter<W>) -> fmt::Result {
        let number = self.outcome.status;
        let (name, sentence) = match Status::from_number(number) {
            Some(status) => (status.name(), status.sentence()),
            None => ("", "status"),
        };
        // Where there is no name the sentence stands in its place.
        if name.is_empty() {
            write!(f, "{sentence} ({number})")?;
            return self.write_place(f);
        }
        write!(f, "{name} ({number})")?;
        self.write_place(f)?;
        write!(f, ": {sentence}")
    }
}
