//! Laws of equality of the methods of the classes channel, tx and confirm: two are equal exactly where contracts see the same.

ghost use Rattle.std.specs.Prelude.{◌≡◌, ◌↔◌, IsTrue};

use crate::{channel, confirm, tx};

/// Two methods of the class channel are equal exactly where contracts see the same: no field is left out.
#[tactic(auto, using(crate::proofs::EqualChannel::same_method))]
pub fn equal_channel_methods(a: &channel::AMQPMethod, b: &channel::AMQPMethod) -> bool
    ensures { IsTrue result ↔ (a.now ≡ b.now) }
{
    a == b
}

/// Two methods of the class tx are equal exactly where contracts see the same: no field is left out.
#[tactic(auto, using(crate::proofs::EqualTx::same_method))]
pub fn equal_tx_methods(a: &tx::AMQPMethod, b: &tx::AMQPMethod) -> bool
    ensures { IsTrue result ↔ (a.now ≡ b.now) }
{
    a == b
}

/// Two methods of the class confirm are equal exactly where contracts see the same: no field is left out.
#[tactic(auto, using(crate::proofs::EqualConfirm::same_method))]
pub fn equal_confirm_methods(a: &confirm::AMQPMethod, b: &confirm::AMQPMethod) -> bool
    ensures { IsTrue result ↔ (a.now ≡ b.now) }
{
    a == b
}

/// Two methods `channel.flow` are equal exactly where contracts see the same: no field is left out.
#[tactic(auto, using(crate::proofs::EqualChannel::same_flow))]
pub fn equal_channel_flow(a: &channel::Flow, b: &channel::Flow) -> bool
    ensures { IsTrue result ↔ (a.now ≡ b.now) }
{
    a == b
}

/// Two methods `channel.flow-ok` are equal exactly where contracts see the same: no field is left out.
#[tactic(auto, using(crate::proofs::EqualChannel::same_flow_ok))]
pub fn equal_channel_flow_ok(a: &channel::FlowOk, b: &channel::FlowOk) -> bool
    ensures { IsTrue result ↔ (a.now ≡ b.now) }
{
    a == b
}

/// Two methods `channel.close` are equal exactly where contracts see the same: no field is left out.
#[tactic(auto, using(crate::proofs::EqualChannel::same_close))]
pub fn equal_channel_close(a: &channel::Close, b: &channel::Close) -> bool
    ensures { IsTrue result ↔ (a.now ≡ b.now) }
{
    a == b
}

/// Two methods `confirm.select` are equal exactly where contracts see the same: no field is left out.
#[tactic(auto, using(crate::proofs::EqualConfirm::same_select))]
pub fn equal_confirm_select(a: &confirm::Select, b: &confirm::Select) -> bool
    ensures { IsTrue result ↔ (a.now ≡ b.now) }
{
    a == b
}
