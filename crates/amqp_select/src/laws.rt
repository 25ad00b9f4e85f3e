//! Laws of rules, each the contract of a function that does nothing.

ghost use Rattle.amqp_select.specs.Laws.{CoveredRulesDecideNothing, WordsSpellOneRule};

/// Without the rules that an earlier one covers the same frames are kept.
pub fn covered_rules_decide_nothing()
    ensures { CoveredRulesDecideNothing }
{}

/// No word stands for two rules.
pub fn words_spell_one_rule()
    ensures { WordsSpellOneRule }
{}
