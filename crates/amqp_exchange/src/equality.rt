//! Laws of equality of the methods of the class exchange: two are equal exactly where contracts see the same.

ghost use Rattle.std.specs.Prelude.{◌≡◌, ◌↔◌, IsTrue};

use crate::exchange;

/// Two methods of the class are equal exactly where contracts see the same: no field is left out.
#[tactic(auto, using(crate::proofs::EqualMethods::same_method))]
pub fn equal_exchange_methods(a: &exchange::AMQPMethod, b: &exchange::AMQPMethod) -> bool
    ensures { IsTrue result ↔ (a.now ≡ b.now) }
{
    a == b
}

/// Two methods `exchange.declare` are equal exactly where contracts see the same: no field is left out.
#[tactic(auto, using(crate::proofs::EqualMethods::same_declare))]
pub fn equal_exchange_declare(a: &exchange::Declare, b: &exchange::Declare) -> bool
    ensures { IsTrue result ↔ (a.now ≡ b.now) }
{
    a == b
}

/// Two methods `exchange.delete` are equal exactly where contracts see the same: no field is left out.
#[tactic(auto, using(crate::proofs::EqualMethods::same_delete))]
pub fn equal_exchange_delete(a: &exchange::Delete, b: &exchange::Delete) -> bool
    ensures { IsTrue result ↔ (a.now ≡ b.now) }
{
    a == b
}

/// Two methods `exchange.bind` are equal exactly where contracts see the same: no field is left out.
#[tactic(auto, using(crate::proofs::EqualMethods::same_bind))]
pub fn equal_exchange_bind(a: &exchange::Bind, b: &exchange::Bind) -> bool
    ensures { IsTrue result ↔ (a.now ≡ b.now) }
{
    a == b
}

/// Two methods `exchange.unbind` are equal exactly where contracts see the same: no field is left out.
#[tactic(auto, using(crate::proofs::EqualMethods::same_unbind))]
pub fn equal_exchange_unbind(a: &exchange::Unbind, b: &exchange::Unbind) -> bool
    ensures { IsTrue result ↔ (a.now ≡ b.now) }
{
    a == b
}
