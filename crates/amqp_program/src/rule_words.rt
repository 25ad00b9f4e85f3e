//! The words that stand for rules.

ghost use Rattle.std.specs.Prelude.{List, IfOk, IfErr};
ghost use Rattle.amqp_select.specs.declared.rule.Rule.{Rule};
ghost use Rattle.amqp_select.specs.Refusals.{Spell, IsRuleWord, texts_of};
ghost use Rattle.amqp_program.specs.Arguments.{IsFirstBadPart, IsRefusedBy, RulesFault};
ghost use Rattle.amqp_program.specs.Commands.{AreNamed};

use crate::outcome::{ArgumentFault, Expected, OUT_OF_MEMORY, Outcome, Place, whole};
use amqp_select::{Rule, RuleError, Rules};
use std::alloc::Global;

/// The most rules that words may stand for.
const MAX_RULES: usize = 64;

/// Where the part of a word begins with which it is no rule any more.
#[tactic(auto, using(crate::proofs::RuleParts::part_begins, crate::proofs::RuleParts::part_goes_on, crate::proofs::RuleParts::next_part, crate::proofs::RuleParts::part_ends, crate::proofs::RuleParts::last_part))]
fn bad_part(word: &[u8]) -> usize
    requires { ¬ IsRuleWord word.now }
    ensures { IsFirstBadPart word.now result }
{
    let mut start = 0;
    for stop in 0..word.len() {
        if word[stop] != b',' {
            continue;
        }
        if Rule::parse(&word[..stop]).is_none() {
            return start;
        }
        start = stop + 1;
    }
    start
}

/// The first of these words that is at fault.
#[tactic(auto, using(crate::proofs::RuleParts::no_rule_words, crate::proofs::RuleParts::malformed_within, crate::proofs::RuleParts::malformed_none, crate::proofs::RuleParts::malformed_word, crate::proofs::RuleParts::too_many))]
fn rules_fault(alloc: Global, words: &[String]) -> ArgumentFault
    requires { (rules : List Rule) → ¬ Spell (texts_of words.now) rules }
    ensures { RulesFault (texts_of words.now) result }
{
    if words.is_empty() {
        return whole(1, Expected::Rule);
    }
    let most = words.len().min(MAX_RULES);
    let front = &words[..most];
    if let Err(RuleError::Malformed { place }) = Rules::parse(alloc, front) {
        return ArgumentFault {
            index: place + 1,
            expected: Expected::Rule,
            part: bad_part(front[place].as_bytes()),
        };
    }
    whole(most + 1, Expected::Nothing)
}

/// The outcome for words that stand for no rules.
#[tactic(auto, using(crate::proofs::RuleParts::refused_at))]
fn refusal(alloc: Global, words: &[String]) -> Outcome
    requires { (rules : List Rule) → ¬ Spell (texts_of words.now) rules }
    ensures { IsRefusedBy (texts_of words.now) result }
{
    Outcome {
        status: 2,
        place: Some(Place::Argument(rules_fault(alloc, words))),
    }
}

/// The rules that words stand for, without each that an earlier one covers: it decides nothing. Else the outcome that the
/// program ends with: 2 where the words stand for no rules, 3 where memory runs out.
#[tactic(auto, using(crate::proofs::RuleParts::refused_memory, crate::proofs::RuleParts::no_memory_at, crate::proofs::RuleParts::miscounted_words, crate::proofs::RuleParts::malformed_words))]
pub fn rules_named(alloc: Global, words: &[String]) -> Result<Rules, Outcome>
    ensures named { IfOk result (λ rules. AreNamed (texts_of words.now) rules) }
    ensures refused { IfErr result (λ outcome. IsRefusedBy (texts_of words.now) outcome) }
{
    let rules = match Rules::parse(alloc, words) {
        Ok(rules) => rules,
        Err(RuleError::NoMemory) => return Err(OUT_OF_MEMORY),
        Err(RuleError::Count) => return Err(refusal(alloc, words)),
        Err(RuleError::Malformed { .. }) => return Err(refusal(alloc, words)),
    };
    match rules.without_covered(alloc) {
        Ok(uncovered) => Ok(uncovered),
        Err(_) => Err(OUT_OF_MEMORY),
    }
}
