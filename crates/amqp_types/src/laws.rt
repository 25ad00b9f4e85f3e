//! Laws of the definitions, each the contract of a function that does nothing.

ghost use Rattle.amqp_types.specs.Laws.{BooleansSpell};

/// Decoding a truth value takes exactly what is encoded, its strict encoding is its canonical byte,
/// and what is strict is tidy, and what is tidy is plain.
#[tactic(auto, using(crate::proofs::Booleans::boolean_laws))]
pub fn booleans_spell()
    ensures { BooleansSpell }
{}
