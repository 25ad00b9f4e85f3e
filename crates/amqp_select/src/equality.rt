//! The laws of equality: two errors, and two lists of rules, are equal exactly where contracts see the same.

ghost use Rattle.std.specs.Prelude.{◌≡◌, ◌↔◌, IsTrue};

use crate::errors::RuleError;
use crate::rules::Rules;

/// Errors of rules are equal exactly where they are the same, at the same place.
pub fn equal_rule_errors(a: &RuleError, b: &RuleError) -> bool
    ensures { IsTrue result ↔ (a.now ≡ b.now) }
{
    a == b
}

/// Rules are equal exactly where they are the same rules in the same order.
#[tactic(auto, using(crate::proofs::EqualRules::same_rules))]
pub fn equal_rules(a: &Rules, b: &Rules) -> bool
    ensures { IsTrue result ↔ (a.now ≡ b.now) }
{
    a == b
}
