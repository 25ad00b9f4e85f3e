//! The words after the program's name, and what they ask for.

ghost use Rattle.std.specs.Prelude.{◌≡◌, codes, None, is_some};
ghost use Rattle.std.specs.Option.{option_map};
ghost use Rattle.amqp_select.specs.Refusals.{texts_of};
ghost use Rattle.amqp_types.specs.Numerals.{number_named};
ghost use Rattle.amqp_stream.specs.Made.{most_frames};
ghost use Rattle.amqp_program.specs.declared.command.Command.TheVariants as commands;
ghost use Rattle.amqp_program.specs.Arguments.{IsArgumentFault};
ghost use Rattle.amqp_program.specs.Commands.{after_word, command_in_front, command_named};
ghost use Rattle.amqp_program.specs.Commands.{command_of, command_with, recut_by};
ghost use Rattle.amqp_program.specs.Reports.{max_payload};

use crate::outcome::{ArgumentFault, Expected, whole};
use crate::report::MAX_PAYLOAD;
use amqp_types::parse_decimal;

/// What the words ask for.
#[derive(Clone, Copy, Debug, PartialEq, Eq)]
pub enum Command {
    /// `hex`: canonicalizes the bytes of a hex text, and prints them so.
    Hex,

    /// `raw`: canonicalizes bytes.
    Raw,

    /// `tidy`: as `hex`, and takes tidy frames alone.
    Tidy,

    /// `lent`: canonicalizes bytes, and takes memory only before the first read.
    Lent,

    /// `dump`: writes a line of text for each frame.
    Dump,

    /// `undump`: writes the canonical bytes of the frame of each line.
    Undump,

    /// `recut N`: canonicalizes bytes, and cuts the bodies of messages into bodies of N bytes.
    Recut(u32),

    /// `make N`: makes so many frames, and prints the number of their bytes and of their
    /// canonical bytes.
    Make(u32),

    /// `--help`: prints the forms of words.
    Help,

    /// `--version`: prints the version.
    Version,
}

/// The most frames that are made.
const MAX_FRAMES: u32 = 100_000;

/// The largest size that bodies are cut into, in bytes: that of the largest payload.
const MAX_SIZE: u32 = MAX_PAYLOAD;

/// The command of a single word.
fn parse_word(word: &str) -> Option<Command>
    ensures { result ≡ command_named word.now }
{
    match word {
        "hex" => Some(Command::Hex),
        "raw" => Some(Command::Raw),
        "tidy" => Some(Command::Tidy),
        "lent" => Some(Command::Lent),
        "dump" => Some(Command::Dump),
        "undump" => Some(Command::Undump),
        "--help" => Some(Command::Help),
        "--version" => Some(Command::Version),
        _ => None,
    }
}

/// The command `make` with this number of frames.
fn parse_make(number: &str) -> Option<Command>
    ensures { result ≡ option_map commands.Make (number_named most_frames number.now) }
{
    match parse_decimal(number, MAX_FRAMES) {
        Some(frames) => Some(Command::Make(frames)),
        None => None,
    }
}

/// The command `recut` with this size, which is not 0.
fn parse_recut(number: &str) -> Option<Command>
    ensures { result ≡ recut_by (number_named max_payload number.now) }
{
    match parse_decimal(number, MAX_SIZE) {
        Some(0) => None,
        Some(size) => Some(Command::Recut(size)),
        None => None,
    }
}

/// The command of two words.
fn parse_words(word: &str, number: &str) -> Option<Command>
    ensures { result ≡ command_with word.now number.now }
{
    match word {
        "make" => parse_make(number),
        "recut" => parse_recut(number),
        _ => None,
    }
}

/// The command that the words after the program's name ask for, if they are one of the forms.
pub fn parse_command(words: &[String]) -> Option<Command>
    ensures { result ≡ command_of (texts_of words.now) }
{
    match words {
        [word] => parse_word(word.as_str()),
        [word, number] => parse_words(word.as_str(), number.as_str()),
        _ => None,
    }
}

/// The words after the first, where that is this one.
pub fn words_after<'a>(first: &str, words: &'a [String]) -> Option<&'a [String]>
    ensures { option_map (λ rules. texts_of rules.now) result
        ≡ after_word first.now (texts_of words.now) }
{
    match words {
        [word, more @ ..] if word.as_str() == first => Some(more),
        _ => None,
    }
}

/// Whether the first two words are a command.
fn begins_with_two(words: &[String]) -> bool
    ensures { result ≡ is_some (command_in_front (texts_of words.now)) }
{
    match words {
        [word, number, ..] => parse_words(word.as_str(), number.as_str()).is_some(),
        _ => false,
    }
}

/// The first of these words that is at fault, where they are no command and do not begin as a form by rules.
pub fn command_fault(words: &[String]) -> ArgumentFault
    requires no_command { command_of (texts_of words.now) ≡ None }
    requires no_selection { after_word (codes "select") (texts_of words.now) ≡ None }
    requires no_filtering { after_word (codes "filter") (texts_of words.now) ≡ None }
    ensures { IsArgumentFault (texts_of words.now) result }
{
    if begins_with_two(words) {
        return whole(2, Expected::Nothing);
    }
    let Some(first) = words.first() else {
        return whole(0, Expected::Command);
    };
    match first.as_str() {
        "make" => whole(1, Expected::Frames),
        "recut" => whole(1, Expected::Size),
        word if parse_word(word).is_some() => whole(1, Expected::Nothing),
        _ => whole(0, Expected::Command),
    }
}
