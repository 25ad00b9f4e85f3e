//! Writes the messages of a stream that rules keep.

ghost use Rattle.std.specs.Prelude.{◌≡◌, ◌↔◌, ◌⊎◌, ◌≤◌, List};
ghost use Rattle.amqp_select.specs.declared.rule.Rule.{Rule};
ghost use Rattle.amqp_select.specs.Refusals.{Spell, texts_of};
ghost use Rattle.amqp_program.specs.Arguments.{IsRulesFault};
ghost use Rattle.amqp_program.specs.Reporting.{ReportsFilter};

use crate::outcome::{Outcome, turned};
use crate::raw_command::RAW_BUDGET;
use crate::report::MAX_PAYLOAD;
use crate::rule_words::rules_named;
use amqp_filter::filter_reported;
use amqp_select::Rules;
use amqp_stream::{Sink, Source};
use std::alloc::Global;

/// Writes the canonical bytes of the messages whose openings rules keep, and of each other frame that they keep. It is
/// called apart, so that its loop is not laid out among those of other commands.
#[inline(never)]
#[tactic(auto, using(crate::proofs::Statuses::own_statuses))]
fn run_rules<S: Source, K: Sink>(
    alloc: Global,
    rules: &Rules,
    source: &mut S,
    sink: &mut K,
) -> Outcome
    ensures run { ReportsFilter rules.now (S.supply source.old)
        (S.supply source.new) (K.store sink.old) (K.store sink.new) result }
    ensures few { 23 ≤ result.status → (result.status ≡ 24) ⊎ (result.status ≡ 25) }
{
    turned(filter_reported(alloc, rules, source, sink, MAX_PAYLOAD, RAW_BUDGET))
}

/// The same for the rules that words stand for.
#[tactic(auto, using(crate::proofs::Ran::filters_named, crate::proofs::Ran::filter_without_memory))]
pub fn run_filter<S: Source, K: Sink>(
    alloc: Global,
    words: &[String],
    source: &mut S,
    sink: &mut K,
) -> Outcome
    ensures rules { (rules : List Rule) → Spell (texts_of words.now) rules
        → ReportsFilter rules (S.supply source.old) (S.supply source.new)
        (K.store sink.old) (K.store sink.new) result }
    ensures few { 23 ≤ result.status → (result.status ≡ 24) ⊎ (result.status ≡ 25) }
    ensures usage { (result.status ≡ 2)
        ↔ ((rules : List Rule) → ¬ Spell (texts_of words.now) rules) }
    ensures fault { result.status ≡ 2 → IsRulesFault (texts_of words.now) result.place }
    ensures nothing { result.status ≡ 2 → (source.new ≡ source.old) × (sink.new ≡ sink.old) }
{
    match rules_named(alloc, words) {
        Ok(rules) => run_rules(alloc, &rules, source, sink),
        Err(outcome) => outcome,
    }
}
