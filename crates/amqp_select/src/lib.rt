//! Selection of AMQP 0-9-1 frames by rules.
#![tactic(auto)]

mod equality;
mod errors;
mod laws;
mod parsing;
mod rule;
mod rules;
mod selecting;

pub use equality::{equal_rule_errors, equal_rules};
pub use errors::RuleError;
pub use laws::{covered_rules_decide_nothing, words_spell_one_rule};
pub use rule::{Rule, Span};
pub use rules::Rules;
pub use selecting::{select, select_reported};
