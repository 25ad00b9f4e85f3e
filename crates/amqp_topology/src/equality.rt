//! Laws of equality of the methods of the class queue: two are equal exactly where contracts see the same.

ghost use Rattle.std.specs.Prelude.{◌≡◌, ◌↔◌, IsTrue};

use crate::queue;

/// Two methods of the class are equal exactly where contracts see the same: no field is left out.
#[tactic(auto, using(crate::proofs::EqualMethods::same_method))]
pub fn equal_queue_methods(a: &queue::AMQPMethod, b: &queue::AMQPMethod) -> bool
    ensures { IsTrue result ↔ (a.now ≡ b.now) }
{
    a == b
}

/// Two methods `queue.declare` are equal exactly where contracts see the same: no field is left out.
#[tactic(auto, using(crate::proofs::EqualMethods::same_declare))]
pub fn equal_queue_declare(a: &queue::Declare, b: &queue::Declare) -> bool
    ensures { IsTrue result ↔ (a.now ≡ b.now) }
{
    a == b
}

/// Two methods `queue.declare-ok` are equal exactly where contracts see the same: no field is left out.
#[tactic(auto, using(crate::proofs::EqualMethods::same_declare_ok))]
pub fn equal_queue_declare_ok(a: &queue::DeclareOk, b: &queue::DeclareOk) -> bool
    ensures { IsTrue result ↔ (a.now ≡ b.now) }
{
    a == b
}

/// Two methods `queue.bind` are equal exactly where contracts see the same: no field is left out.
#[tactic(auto, using(crate::proofs::EqualMethods::same_bind))]
pub fn equal_queue_bind(a: &queue::Bind, b: &queue::Bind) -> bool
    ensures { IsTrue result ↔ (a.now ≡ b.now) }
{
    a == b
}

/// Two methods `queue.purge` are equal exactly where contracts see the same: no field is left out.
#[tactic(auto, using(crate::proofs::EqualMethods::same_purge))]
pub fn equal_queue_purge(a: &queue::Purge, b: &queue::Purge) -> bool
    ensures { IsTrue result ↔ (a.now ≡ b.now) }
{
    a == b
}

/// Two methods `queue.purge-ok` are equal exactly where contracts see the same: no field is left out.
#[tactic(auto, using(crate::proofs::EqualMethods::same_purge_ok))]
pub fn equal_queue_purge_ok(a: &queue::PurgeOk, b: &queue::PurgeOk) -> bool
    ensures { IsTrue result ↔ (a.now ≡ b.now) }
{
    a == b
}

/// Two methods `queue.delete` are equal exactly where contracts see the same: no field is left out.
#[tactic(auto, using(crate::proofs::EqualMethods::same_delete))]
pub fn equal_queue_delete(a: &queue::Delete, b: &queue::Delete) -> bool
    ensures { IsTrue result ↔ (a.now ≡ b.now) }
{
    a == b
}

/// Two methods `queue.delete-ok` are equal exactly where contracts see the same: no field is left out.
#[tactic(auto, using(crate::proofs::EqualMethods::same_delete_ok))]
pub fn equal_queue_delete_ok(a: &queue::DeleteOk, b: &queue::DeleteOk) -> bool
    ensures { IsTrue result ↔ (a.now ≡ b.now) }
{
    a == b
}

/// Two methods `queue.unbind` are equal exactly where contracts see the same: no field is left out.
#[tactic(auto, using(crate::proofs::EqualMethods::same_unbind))]
pub fn equal_queue_unbind(a: &queue::Unbind, b: &queue::Unbind) -> bool
    ensures { IsTrue result ↔ (a.now ≡ b.now) }
{
    a == b
}
