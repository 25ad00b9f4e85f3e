//! Laws of equality of the methods of the class basic: two are equal exactly where contracts see the same.

ghost use Rattle.std.specs.Prelude.{◌≡◌, ◌↔◌, IsTrue};

use crate::basic;

/// Two methods of the class are equal exactly where contracts see the same: no field is left out.
#[tactic(auto, using(crate::proofs::EqualMethods::same_method))]
pub fn equal_basic_methods(a: &basic::AMQPMethod, b: &basic::AMQPMethod) -> bool
    ensures { IsTrue result ↔ (a.now ≡ b.now) }
{
    a == b
}

/// Two methods `basic.qos` are equal exactly where contracts see the same: no field is left out.
#[tactic(auto, using(crate::proofs::EqualMethods::same_qos))]
pub fn equal_basic_qos(a: &basic::Qos, b: &basic::Qos) -> bool
    ensures { IsTrue result ↔ (a.now ≡ b.now) }
{
    a == b
}

/// Two methods `basic.consume` are equal exactly where contracts see the same: no field is left out.
#[tactic(auto, using(crate::proofs::EqualMethods::same_consume))]
pub fn equal_basic_consume(a: &basic::Consume, b: &basic::Consume) -> bool
    ensures { IsTrue result ↔ (a.now ≡ b.now) }
{
    a == b
}

/// Two methods `basic.consume-ok` are equal exactly where contracts see the same: no field is left out.
#[tactic(auto, using(crate::proofs::EqualMethods::same_consume_ok))]
pub fn equal_basic_consume_ok(a: &basic::ConsumeOk, b: &basic::ConsumeOk) -> bool
    ensures { IsTrue result ↔ (a.now ≡ b.now) }
{
    a == b
}

/// Two methods `basic.cancel` are equal exactly where contracts see the same: no field is left out.
#[tactic(auto, using(crate::proofs::EqualMethods::same_cancel))]
pub fn equal_basic_cancel(a: &basic::Cancel, b: &basic::Cancel) -> bool
    ensures { IsTrue result ↔ (a.now ≡ b.now) }
{
    a == b
}

/// Two methods `basic.cancel-ok` are equal exactly where contracts see the same: no field is left out.
#[tactic(auto, using(crate::proofs::EqualMethods::same_cancel_ok))]
pub fn equal_basic_cancel_ok(a: &basic::CancelOk, b: &basic::CancelOk) -> bool
    ensures { IsTrue result ↔ (a.now ≡ b.now) }
{
    a == b
}

/// Two methods `basic.publish` are equal exactly where contracts see the same: no field is left out.
#[tactic(auto, using(crate::proofs::EqualMethods::same_publish))]
pub fn equal_basic_publish(a: &basic::Publish, b: &basic::Publish) -> bool
    ensures { IsTrue result ↔ (a.now ≡ b.now) }
{
    a == b
}

/// Two methods `basic.return` are equal exactly where contracts see the same: no field is left out.
#[tactic(auto, using(crate::proofs::EqualMethods::same_return))]
pub fn equal_basic_return(a: &basic::Return, b: &basic::Return) -> bool
    ensures { IsTrue result ↔ (a.now ≡ b.now) }
{
    a == b
}

/// Two methods `basic.deliver` are equal exactly where contracts see the same: no field is left out.
#[tactic(auto, using(crate::proofs::EqualMethods::same_deliver))]
pub fn equal_basic_deliver(a: &basic::Deliver, b: &basic::Deliver) -> bool
    ensures { IsTrue result ↔ (a.now ≡ b.now) }
{
    a == b
}

/// Two methods `basic.get` are equal exactly where contracts see the same: no field is left out.
#[tactic(auto, using(crate::proofs::EqualMethods::same_get))]
pub fn equal_basic_get(a: &basic::Get, b: &basic::Get) -> bool
    ensures { IsTrue result ↔ (a.now ≡ b.now) }
{
    a == b
}

/// Two methods `basic.get-ok` are equal exactly where contracts see the same: no field is left out.
#[tactic(auto, using(crate::proofs::EqualMethods::same_get_ok))]
pub fn equal_basic_get_ok(a: &basic::GetOk, b: &basic::GetOk) -> bool
    ensures { IsTrue result ↔ (a.now ≡ b.now) }
{
    a == b
}

/// Two methods `basic.ack` are equal exactly where contracts see the same: no field is left out.
#[tactic(auto, using(crate::proofs::EqualMethods::same_ack))]
pub fn equal_basic_ack(a: &basic::Ack, b: &basic::Ack) -> bool
    ensures { IsTrue result ↔ (a.now ≡ b.now) }
{
    a == b
}

/// Two methods `basic.reject` are equal exactly where contracts see the same: no field is left out.
#[tactic(auto, using(crate::proofs::EqualMethods::same_reject))]
pub fn equal_basic_reject(a: &basic::Reject, b: &basic::Reject) -> bool
    ensures { IsTrue result ↔ (a.now ≡ b.now) }
{
    a == b
}

/// Two methods `basic.recover-async` are equal exactly where contracts see the same: no field is left out.
#[tactic(auto, using(crate::proofs::EqualMethods::same_recover_async))]
pub fn equal_basic_recover_async(a: &basic::RecoverAsync, b: &basic::RecoverAsync) -> bool
    ensures { IsTrue result ↔ (a.now ≡ b.now) }
{
    a == b
}

/// Two methods `basic.recover` are equal exactly where contracts see the same: no field is left out.
#[tactic(auto, using(crate::proofs::EqualMethods::same_recover))]
pub fn equal_basic_recover(a: &basic::Recover, b: &basic::Recover) -> bool
    ensures { IsTrue result ↔ (a.now ≡ b.now) }
{
    a == b
}

/// Two methods `basic.nack` are equal exactly where contracts see the same: no field is left out.
#[tactic(auto, using(crate::proofs::EqualMethods::same_nack))]
pub fn equal_basic_nack(a: &basic::Nack, b: &basic::Nack) -> bool
    ensures { IsTrue result ↔ (a.now ≡ b.now) }
{
    a == b
}
