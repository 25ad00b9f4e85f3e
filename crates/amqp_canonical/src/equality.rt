//! Laws of equality: two forms or fields, and two results of decoding, are equal exactly where contracts see the same.

ghost use Rattle.std.specs.Prelude.{◌≡◌, ◌↔◌, IsTrue};
ghost use Rattle.amqp_canonical.specs.Shapes.{AreSameSlots};

use crate::shapes::{Form, Slot};
use crate::slots::Judgement;
use crate::values::ValueJudgement;

/// Two forms are equal exactly where they are the same.
#[tactic(auto, using(crate::proofs::EqualJudgements::same_form))]
pub fn equal_forms(a: &Form, b: &Form) -> bool
    ensures { IsTrue result ↔ (a.now ≡ b.now) }
{
    a == b
}

/// Two fields are equal exactly where both are kept or both are reserved, by one form, with the same constant.
#[tactic(auto, using(crate::proofs::EqualJudgements::same_slot))]
pub fn equal_slots(a: &Slot, b: &Slot) -> bool
    ensures { IsTrue result ↔ AreSameSlots a.now b.now }
{
    a == b
}

/// Two results of decoding fields are equal exactly where they say the same.
#[tactic(auto, using(crate::proofs::EqualJudgements::same_judgement))]
pub fn equal_judgements(a: &Judgement, b: &Judgement) -> bool
    ensures { IsTrue result ↔ (a.now ≡ b.now) }
{
    a == b
}

/// Two results of decoding a value are equal exactly where they say the same.
#[tactic(auto, using(crate::proofs::EqualJudgements::same_value_judgement))]
pub fn equal_value_judgements(a: &ValueJudgement, b: &ValueJudgement) -> bool
    ensures { IsTrue result ↔ (a.now ≡ b.now) }
{
    a == b
}
