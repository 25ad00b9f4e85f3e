//! What the program does for each form of words.

ghost use Rattle.std.specs.Prelude.{◌≡◌, ◌↔◌, ◌≤◌, ℕ, List, Some, codes};
ghost use Rattle.amqp_select.specs.declared.rule.Rule.{Rule};
ghost use Rattle.amqp_select.specs.Refusals.{texts_of};
ghost use Rattle.amqp_program.specs.declared.command.Command.{Command};
ghost use Rattle.amqp_program.specs.Arguments.{IsArgumentPlace};
ghost use Rattle.amqp_program.specs.Commands.{after_word, command_of, IsNoForm};
ghost use Rattle.amqp_program.specs.Commands.{IsSelection, IsFiltering};
ghost use Rattle.amqp_program.specs.Reporting.{ReadsNothing, ReportsCommand};
ghost use Rattle.amqp_program.specs.Reporting.{ReportsFilter, ReportsSelect, RunsCommand};
ghost use Rattle.amqp_program.specs.Runs.{MayEndWith, RunsFilter, RunsSelect};

use crate::command::{Command, command_fault, parse_command, words_after};
use crate::dump_command::run_dump;
use crate::filter_command::run_filter;
use crate::hex_command::run_hex;
use crate::make_command::run_make;
use crate::outcome::{Outcome, Place, placeless};
use crate::print_command::{HELP, VERSION, print};
use crate::raw_command::{run_lent, run_raw};
use crate::recut_command::run_recut;
use crate::select_command::run_select;
use crate::undump_command::run_undump;
use amqp_stream::{Sink, Source};
use amqp_types::Profile;
use std::alloc::Global;

/// Does all that the program does, and reports how it ended and where: its exit status, and the place in the input, in the
/// text or among the arguments of what ended it. The words are those after the program's name.
#[tactic(auto, using(crate::proofs::Reporting::done, crate::proofs::Reporting::usage, crate::proofs::Reporting::is_form, crate::proofs::Reporting::asks_none, crate::proofs::Reporting::owns_none, crate::proofs::Reporting::owns, crate::proofs::Reporting::owns_filter))]
pub fn run_reported<S: Source, K: Sink>(
    alloc: Global,
    words: &[String],
    source: &mut S,
    sink: &mut K,
) -> Outcome
    ensures command { (command : Command) → command_of (texts_of words.now) ≡ Some command
        → ReportsCommand command (S.supply source.old)
        (S.supply source.new) (K.store sink.old) (K.store sink.new) result }
    ensures unread { (command : Command) → command_of (texts_of words.now) ≡ Some command
        → ReadsNothing command → source.new ≡ source.old }
    ensures select { (rules : List Rule) → IsSelection (texts_of words.now) rules
        → ReportsSelect rules (S.supply source.old) (S.supply source.new)
        (K.store sink.old) (K.store sink.new) result }
    ensures filter { (rules : List Rule) → IsFiltering (texts_of words.now) rules
        → ReportsFilter rules (S.supply source.old) (S.supply source.new)
        (K.store sink.old) (K.store sink.new) result }

    // NotTidy and BadText are each of one command, BadContent and OpenContent of `recut` and `filter`.
    ensures own { 23 ≤ result.status
        → MayEndWith (after_word (codes "filter") (texts_of words.now))
        (command_of (texts_of words.now)) result.status }

    // Words that are none of the forms, and only they, end with 2, at the first that is at fault. Nothing is read or written.
    ensures usage { (result.status ≡ 2) ↔ IsNoForm (texts_of words.now) }
    ensures argument { IsNoForm (texts_of words.now)
        → IsArgumentPlace (texts_of words.now) result.place }
    ensures nothing { IsNoForm (texts_of words.now)
        → (source.new ≡ source.old) × (sink.new ≡ sink.old) }
{
    if let Some(rules) = words_after("select", words) {
        return run_select(alloc, rules, source, sink);
    }
    if let Some(rules) = words_after("filter", words) {
        return run_filter(alloc, rules, source, sink);
    }
    match parse_command(words) {
        Some(Command::Hex) => run_hex(alloc, Profile::Plain, source, sink),
        Some(Command::Tidy) => run_hex(alloc, Profile::Tidy, source, sink),
        Some(Command::Raw) => run_raw(alloc, source, sink),
        Some(Command::Lent) => run_lent(alloc, source, sink),
        Some(Command::Dump) => run_dump(alloc, source, sink),
        Some(Command::Undump) => run_undump(alloc, source, sink),
        Some(Command::Recut(size)) => run_recut(alloc, size, source, sink),
        Some(Command::Make(frames)) => placeless(run_make(alloc, frames, sink)),
        Some(Command::Help) => placeless(print(sink, HELP)),
        Some(Command::Version) => placeless(print(sink, VERSION)),
        None => Outcome {
            status: 2,
            place: Some(Place::Argument(command_fault(words))),
        },
    }
}

/// The same, without where it ended: returns the exit status.
#[tactic(auto, using(crate::proofs::Reporting::ran, crate::proofs::Reporting::selected, crate::proofs::Reporting::filtered))]
pub fn run<S: Source, K: Sink>(alloc: Global, words: &[String], source: &mut S, sink: &mut K) -> u8
    ensures command { (command : Command) → command_of (texts_of words.now) ≡ Some command
        → RunsCommand command (S.supply source.old) (S.supply source.new)
        (K.store sink.old) (K.store sink.new) result }
    ensures unread { (command : Command) → command_of (texts_of words.now) ≡ Some command
        → ReadsNothing command → source.new ≡ source.old }
    ensures select { (rules : List Rule) → IsSelection (texts_of words.now) rules
        → RunsSelect rules (S.supply source.old) (S.supply source.new)
        (K.store sink.old) (K.store sink.new) result }
    ensures filter { (rules : List Rule) → IsFiltering (texts_of words.now) rules
        → RunsFilter rules (S.supply source.old) (S.supply source.new)
        (K.store sink.old) (K.store sink.new) result }
    ensures own { 23 ≤ result
        → MayEndWith (after_word (codes "filter") (texts_of words.now))
        (command_of (texts_of words.now)) result }
    ensures usage { (result ≡ 2) ↔ IsNoForm (texts_of words.now) }
    ensures nothing { IsNoForm (texts_of words.now)
        → (source.new ≡ source.old) × (sink.new ≡ sink.old) }
{
    run_reported(alloc, words, source, sink).status
}
