//! Writes the frames of a stream that rules keep.

ghost use Rattle.std.specs.Prelude.{◌≡◌, ◌↔◌, ◌<◌, List};
ghost use Rattle.amqp_select.specs.declared.rule.Rule.{Rule};
ghost use Rattle.amqp_select.specs.Refusals.{Spell, texts_of};
ghost use Rattle.amqp_program.specs.Arguments.{IsRulesFault};
ghost use Rattle.amqp_program.specs.Reporting.{ReportsSelect};

use crate::outcome::{Outcome, streamed};
use crate::raw_command::RAW_BUDGET;
use crate::report::MAX_PAYLOAD;
use crate::rule_words::rules_named;
use amqp_select::{Rules, select_reported};
use amqp_stream::{Sink, Source};
use std::alloc::Global;

/// Writes the canonical bytes of the frames that rules keep.
#[tactic(auto, using(crate::proofs::Statuses::streamed_below_23))]
fn run_rules<S: Source, K: Sink>(
    alloc: Global,
    rules: &Rules,
    source: &mut S,
    sink: &mut K,
) -> Outcome
    ensures run { ReportsSelect rules.now (S.supply source.old)
        (S.supply source.new) (K.store sink.old) (K.store sink.new) result }
    ensures few { result.status < 23 }
{
    streamed(select_reported(alloc, rules, source, sink, MAX_PAYLOAD, RAW_BUDGET))
}

/// The same for the rules that words stand for.
#[tactic(auto, using(crate::proofs::Ran::selects_named, crate::proofs::Ran::select_without_memory))]
pub fn run_select<S: Source, K: Sink>(
    alloc: Global,
    words: &[String],
    source: &mut S,
    sink: &mut K,
) -> Outcome
    ensures rules { (rules : List Rule) → Spell (texts_of words.now) rules
        → ReportsSelect rules (S.supply source.old) (S.supply source.new)
        (K.store sink.old) (K.store sink.new) result }
    ensures few { result.status < 23 }
    ensures usage { (result.status ≡ 2)
        ↔ ((rules : List Rule) → ¬ Spell (texts_of words.now) rules) }
    ensures fault { result.status ≡ 2 → IsRulesFault (texts_of words.now) result.place }
    ensures nothing { result.status ≡ 2 → (source.new ≡ source.old) × (sink.new ≡ sink.old) }
{
    match rules_named(alloc, words) {
        Ok(rules) => run_rules(alloc, &rules, source, sink),
        Err(outcome) => outcome,
    }
}
