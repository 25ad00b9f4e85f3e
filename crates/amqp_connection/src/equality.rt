//! Laws of equality of the methods of the classes access and connection: two are equal exactly where contracts see the same.

ghost use Rattle.std.specs.Prelude.{◌≡◌, ◌↔◌, IsTrue};

use crate::{access, connection};

/// Two methods of the class connection are equal exactly where contracts see the same: no field is left out.
#[tactic(auto, using(crate::proofs::EqualConnection::same_method))]
pub fn equal_connection_methods(a: &connection::AMQPMethod, b: &connection::AMQPMethod) -> bool
    ensures { IsTrue result ↔ (a.now ≡ b.now) }
{
    a == b
}

/// Two methods of the class access are equal exactly where contracts see the same: no field is left out.
#[tactic(auto, using(crate::proofs::EqualAccess::same_method))]
pub fn equal_access_methods(a: &access::AMQPMethod, b: &access::AMQPMethod) -> bool
    ensures { IsTrue result ↔ (a.now ≡ b.now) }
{
    a == b
}

/// Two methods `access.request` are equal exactly where contracts see the same: no field is left out.
#[tactic(auto, using(crate::proofs::EqualAccess::same_request))]
pub fn equal_access_request(a: &access::Request, b: &access::Request) -> bool
    ensures { IsTrue result ↔ (a.now ≡ b.now) }
{
    a == b
}

/// Two methods `connection.start` are equal exactly where contracts see the same: no field is left out.
#[tactic(auto, using(crate::proofs::EqualConnection::same_start))]
pub fn equal_connection_start(a: &connection::Start, b: &connection::Start) -> bool
    ensures { IsTrue result ↔ (a.now ≡ b.now) }
{
    a == b
}

/// Two methods `connection.start-ok` are equal exactly where contracts see the same: no field is left out.
#[tactic(auto, using(crate::proofs::EqualConnection::same_start_ok))]
pub fn equal_connection_start_ok(a: &connection::StartOk, b: &connection::StartOk) -> bool
    ensures { IsTrue result ↔ (a.now ≡ b.now) }
{
    a == b
}

/// Two methods `connection.secure` are equal exactly where contracts see the same: no field is left out.
#[tactic(auto, using(crate::proofs::EqualConnection::same_secure))]
pub fn equal_connection_secure(a: &connection::Secure, b: &connection::Secure) -> bool
    ensures { IsTrue result ↔ (a.now ≡ b.now) }
{
    a == b
}

/// Two methods `connection.secure-ok` are equal exactly where contracts see the same: no field is left out.
#[tactic(auto, using(crate::proofs::EqualConnection::same_secure_ok))]
pub fn equal_connection_secure_ok(a: &connection::SecureOk, b: &connection::SecureOk) -> bool
    ensures { IsTrue result ↔ (a.now ≡ b.now) }
{
    a == b
}

/// Two methods `connection.tune` are equal exactly where contracts see the same: no field is left out.
#[tactic(auto, using(crate::proofs::EqualConnection::same_tune))]
pub fn equal_connection_tune(a: &connection::Tune, b: &connection::Tune) -> bool
    ensures { IsTrue result ↔ (a.now ≡ b.now) }
{
    a == b
}

/// Two methods `connection.tune-ok` are equal exactly where contracts see the same: no field is left out.
#[tactic(auto, using(crate::proofs::EqualConnection::same_tune_ok))]
pub fn equal_connection_tune_ok(a: &connection::TuneOk, b: &connection::TuneOk) -> bool
    ensures { IsTrue result ↔ (a.now ≡ b.now) }
{
    a == b
}

/// Two methods `connection.open` are equal exactly where contracts see the same: no field is left out.
#[tactic(auto, using(crate::proofs::EqualConnection::same_open))]
pub fn equal_connection_open(a: &connection::Open, b: &connection::Open) -> bool
    ensures { IsTrue result ↔ (a.now ≡ b.now) }
{
    a == b
}

/// Two methods `connection.close` are equal exactly where contracts see the same: no field is left out.
#[tactic(auto, using(crate::proofs::EqualConnection::same_close))]
pub fn equal_connection_close(a: &connection::Close, b: &connection::Close) -> bool
    ensures { IsTrue result ↔ (a.now ≡ b.now) }
{
    a == b
}

/// Two methods `connection.blocked` are equal exactly where contracts see the same: no field is left out.
#[tactic(auto, using(crate::proofs::EqualConnection::same_blocked))]
pub fn equal_connection_blocked(a: &connection::Blocked, b: &connection::Blocked) -> bool
    ensures { IsTrue result ↔ (a.now ≡ b.now) }
{
    a == b
}

/// Two methods `connection.update-secret` are equal exactly where contracts see the same: no field is left out.
#[tactic(auto, using(crate::proofs::EqualConnection::same_update_secret))]
pub fn equal_connection_update_secret(
    a: &connection::UpdateSecret,
    b: &connection::UpdateSecret,
) -> bool
    ensures { IsTrue result ↔ (a.now ≡ b.now) }
{
    a == b
}
