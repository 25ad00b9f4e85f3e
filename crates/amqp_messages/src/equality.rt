//! Laws of equality: two openings, messages or outcomes are equal exactly where contracts see the same.

ghost use Rattle.std.specs.Prelude.{◌≡◌, ◌↔◌, IsTrue};

use crate::message::Message;
use crate::opening::Opening;
use crate::outcome::Outcome;

/// Openings are equal exactly where they are the same method, with the same fields.
#[tactic(auto, using(crate::proofs::EqualMessages::same_opening))]
pub fn equal_openings(a: &Opening, b: &Opening) -> bool
    ensures { IsTrue result ↔ (a.now ≡ b.now) }
{
    a == b
}

/// Messages are equal exactly where their channels, openings, properties and bodies are the same.
#[tactic(auto, using(crate::proofs::EqualMessages::same_message))]
pub fn equal_messages(a: &Message, b: &Message) -> bool
    ensures { IsTrue result ↔ (a.now ≡ b.now) }
{
    a == b
}

/// Outcomes are equal exactly where they are the same, with the same frame, message or fault.
#[tactic(auto, using(crate::proofs::EqualOutcomes::same_outcome))]
pub fn equal_outcomes(a: &Outcome, b: &Outcome) -> bool
    ensures { IsTrue result ↔ (a.now ≡ b.now) }
{
    a == b
}
