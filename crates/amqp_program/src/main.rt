//! Canonicalizes AMQP 0-9-1 frames: what is read is written in its one canonical encoding.
#![tactic(auto)]

mod command;
mod dump_command;
mod filter_command;
mod hex_command;
mod laws;
mod make_command;
mod message;
mod outcome;
mod output;
mod print_command;
mod raw_command;
mod recut_command;
mod report;
mod rule_words;
mod run;
mod select_command;
mod text;
mod undump_command;

use amqp_stream::{StdSink, StdSource};
use message::Message;
use outcome::{Outcome, placeless};
use output::Output;
use print_command::HELP;
use run::run_reported;
use std::cell::Cell;
use std::env::Env;
use std::process::ExitCode;
use std::{env, io};

/// The words after the program's name.
fn words_of(rt: &(impl Env + AllocGlobal)) -> io::Result<Vec<String>> {
    let mut words = Vec::new(rt.alloc());
    for word in env::args(rt)?.skip(1) {
        words.push(word)?;
    }
    Ok(words)
}

/// Whether the words ask for nothing but the commands.
fn asks_for_usage(words: &[String]) -> bool {
    match words {
        [] => true,
        [word] => word.as_str() == "-h",
        _ => false,
    }
}

/// Says on standard error how a run ended, unless it ended well. Where that cannot be written it is not said.
fn say(rt: &impl Eprint, outcome: Outcome, words: &[String]) {
    if outcome.status == 0 {
        return;
    }
    let _ = if outcome.status == 2 && asks_for_usage(words) {
        eprint!(rt; "{HELP}")
    } else {
        eprintln!(rt; "feksroum: {}", Message { outcome, words })
    };
}

fn main(rt: HostRuntime) -> ExitCode {
    let words = match words_of(&rt) {
        Ok(words) => words,
        Err(error) => {
            let status = match error.kind() {
                io::ErrorKind::OutOfMemory => 3,
                _ => 1,
            };
            say(&rt, placeless(status), &[]);
            return ExitCode::from(status);
        }
    };
    let is_closed = Cell::new(false);
    let mut source = StdSource::new(rt.reader());
    let mut sink = StdSink::new(Output::new(io::writer(&rt), &is_closed));
    let outcome = run_reported(rt.alloc(), words.as_slice(), &mut source, &mut sink);
    // Who reads the output has gone, and knows it.
    if !is_closed.get() {
        say(&rt, outcome, words.as_slice());
    }
    ExitCode::from(outcome.status)
}

#[cfg(test)]
mod tests;
