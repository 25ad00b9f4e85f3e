//! Rules in order, of which the first that matches a frame decides.

ghost use Rattle.std.specs.Prelude.{◌≡◌, ◌<◌, Err, length, position, IfOk, IfSome};
ghost use Rattle.std.specs.Option.{option_copied};
ghost use Rattle.amqp_wire.specs.declared.outline.FrameOutline.{FrameOutline};
ghost use Rattle.amqp_select.specs.Matching.{decided_of_all, decides, first_match};
ghost use Rattle.amqp_select.specs.Covering.{covered, covers, uncovered};
ghost use Rattle.amqp_select.specs.Refusals.{IsCount, ParsesRules, ParsesItems, texts_of};

use crate::errors::RuleError;
use crate::parsing::read_rule;
use crate::rule::Rule;
use amqp_types::NoMemory;
use amqp_wire::{FrameOutline, HasOutline};
use std::alloc::Global;
use std::marker::Model;

/// The most rules that there may be.
const MAX_RULES: usize = 64;

/// Rules in order. A frame is kept where a first rule that matches it is there and says keep.
#[derive(Debug, Drop)]
pub struct Rules {
    rules: Vec<Rule>,
}

impl Model for Rules {
    ghost use Rattle.std.specs.Prelude.{List};
    ghost use Rattle.amqp_select.specs.declared.rule.Rule.{Rule};

    ghost Value = { List Rule };

    ghost view = { λ rules. rules.rules.items };
}

impl PartialEq for Rules {
    ghost use Rattle.std.specs.Cmp.Lexicographic.{lists_per, pointwise};
    ghost use Rattle.amqp_select.specs.contracts.rule.RulePartialEq.TheImpl as rule;
    ghost use Rattle.amqp_select.specs.contracts.rule.RulePartialEq.TheImpl.Laws.{laws-law};

    ghost eq = { pointwise rule.ghosts.eq };

    ghost laws = { lists_per laws-law };

    fn eq(&self, other: &Rules) -> bool {
        self.rules == other.rules
    }
}

impl Eq for Rules {
    ghost use Rattle.std.specs.Cmp.Lexicographic.{lists_equiv};
    ghost use Rattle.amqp_select.specs.contracts.rule.RuleEq.TheImpl.Laws.{laws-law};

    ghost laws = { lists_equiv laws-law };
}

impl Rules {
    /// The rules that 1 to 64 words stand for, one a word. Whether they do is found without memory.
    pub fn parse(alloc: Global, words: &[String]) -> Result<Rules, RuleError>
        ensures { ParsesRules (texts_of words.now) result }
    {
        match parse_rules(alloc, words) {
            Ok(rules) => Ok(Rules { rules }),
            Err(RuleError::NoMemory) => Err(why_refused(words)),
            Err(error) => Err(error),
        }
    }

    /// How many rules there are.
    pub fn len(&self) -> usize
        ensures { result ≡ length self.now }
    {
        self.rules.len()
    }

    /// Whether a frame is kept, typed or borrowed, or a reference to one.
    pub fn decide<F: HasOutline>(&self, frame: F) -> bool
        requires { F.is_whole frame }
        ensures { result ≡ decides self.now (F.meaning frame) }
    {
        self.decide_outline(frame.to_outline())
    }

    /// Whether a frame with this outline is kept.
    pub fn decide_outline(&self, outline: FrameOutline) -> bool
        ensures { result ≡ decides self.now outline }
    {
        match first_match(&self.rules, outline) {
            Some(rule) => rule.keep,
            None => false,
        }
    }

    /// What is decided of every frame, where the first rule has no part, and `None` elsewhere. A caller that asks once needs
    /// no outline of any frame then.
    pub fn decide_all(&self) -> Option<bool>
        ensures value { result ≡ decided_of_all self.now }
        ensures every { (outline : FrameOutline)
            → IfSome result (λ keep. keep ≡ decides self.now outline) }
    {
        decide_all(&self.rules)
    }

    /// The first earlier rule that covers rule `k`, which then is never the first to match.
    pub fn covered_by(&self, k: usize) -> Option<usize>
        requires { k < length self.now }
        ensures { result ≡ covered self.now k }
    {
        covered_by(&self.rules, k)
    }

    /// The rules that no earlier one covers. They keep the same frames.
    pub fn without_covered(&self, alloc: Global) -> Result<Rules, NoMemory>
        ensures { IfOk result (λ rules. rules ≡ uncovered self.now) }
    {
        let rules = without_covered(alloc, &self.rules)?;
        Ok(Rules { rules })
    }
}

/// The rules that 1 to 64 words stand for.
fn parse_rules(alloc: Global, words: &[String]) -> Result<Vec<Rule>, RuleError>
    ensures { ParsesItems (texts_of words.now) result }
{
    if words.is_empty() || words.len() > MAX_RULES {
        return Err(RuleError::Count);
    }
    let mut rules = Vec::new(alloc);
    for (place, word) in words.iter().enumerate() {
        match read_rule(word.as_bytes()) {
            Some(rule) => rules.push(rule)?,
            None => return Err(RuleError::Malformed { place }),
        }
    }
    Ok(rules)
}

/// Why as many words were refused as there may be, where memory ran out before all of them were looked at.
fn why_refused(words: &[String]) -> RuleError
    requires { IsCount (length words.now) }
    ensures { ParsesRules (texts_of words.now) (Err result) }
{
    for (place, word) in words.iter().enumerate() {
        match read_rule(word.as_bytes()) {
            Some(_) => {}
            None => return RuleError::Malformed { place },
        }
    }
    RuleError::NoMemory
}

/// The first rule that matches a frame with this outline.
fn first_match(rules: &[Rule], outline: FrameOutline) -> Option<&Rule>
    ensures { option_copied result ≡ first_match rules.now outline }
{
    rules.iter().find(|rule| rule.matches(outline))
}

/// What is decided of every frame, where the first rule has no part.
fn decide_all(rules: &[Rule]) -> Option<bool>
    ensures value { result ≡ decided_of_all rules.now }
    ensures every { (outline : FrameOutline)
        → IfSome result (λ keep. keep ≡ decides rules.now outline) }
{
    match rules {
        [first, ..] if first.is_bare() => Some(first.keep),
        _ => None,
    }
}

/// The first rule that covers this one.
fn first_covering(rules: &[Rule], rule: &Rule) -> Option<usize>
    ensures { result ≡ position (λ earlier. covers earlier rule.now) rules.now }
{
    rules.iter().position(|earlier| earlier.covers(rule))
}

/// The first earlier rule that covers rule `k`.
fn covered_by(rules: &[Rule], k: usize) -> Option<usize>
    requires { k < length rules.now }
    ensures { result ≡ covered rules.now k }
{
    first_covering(&rules[..k], &rules[k])
}

/// The rules that no earlier one covers.
fn without_covered(alloc: Global, rules: &[Rule]) -> Result<Vec<Rule>, NoMemory>
    ensures { IfOk result (λ kept. kept.items ≡ uncovered rules.now) }
{
    let mut kept = Vec::new(alloc);
    for k in 0..rules.len() {
        if covered_by(rules, k).is_some() {
            continue;
        }
        kept.push(rules[k])?;
    }
    Ok(kept)
}
