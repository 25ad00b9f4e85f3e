//! The protocol's name and version.

use amqp_protocol::metadata::{MAJOR_VERSION, MINOR_VERSION, NAME, REVISION};
use amqp_vectors::asking::same;
use std::test::Fail;

#[test]
fn the_protocol_has_a_name_and_a_version(rt: HostRuntime) -> Result<(), Fail> {
    let text = format!(in rt.alloc(); "{NAME} - {MAJOR_VERSION}.{MINOR_VERSION}.{REVISION}")?;
    same(text.as_str(), "AMQP - 0.9.1")
}
