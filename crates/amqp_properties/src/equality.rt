//! The laws of equality: properties, and content headers, are equal exactly where contracts see the same.

ghost use Rattle.std.specs.Prelude.{◌≡◌, ◌↔◌, IsTrue};

use crate::content_header::AMQPContentHeader;
use crate::properties::AMQPProperties;

/// Properties are equal exactly where all 14 are the same.
#[tactic(auto, using(crate::proofs::EqualProperties::same_properties))]
pub fn equal_properties(a: &AMQPProperties, b: &AMQPProperties) -> bool
    ensures { IsTrue result ↔ (a.now ≡ b.now) }
{
    a == b
}

/// Whether two content headers are equal, with all their properties.
#[tactic(auto, using(crate::proofs::EqualHeaders::same_header))]
pub fn equal_content_headers(a: &AMQPContentHeader, b: &AMQPContentHeader) -> bool
    ensures { IsTrue result ↔ (a.now ≡ b.now) }
{
    a == b
}
