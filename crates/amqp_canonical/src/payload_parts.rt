//! The parts of the payloads of methods and content headers.

ghost use Rattle.std.specs.Prelude.{◌≡◌, ◌≤◌, length};
ghost use Rattle.amqp_types.specs.Numbers.{bytes2, bytes8, judge_number};
ghost use Rattle.amqp_types.specs.Judging.{took};
ghost use Rattle.amqp_types.specs.ContentHeaders.{judge_content_header};
ghost use Rattle.amqp_canonical.specs.Payloads.{header_payload, method_payload};
ghost use Rattle.amqp_canonical.specs.Writes.{IsRead};

use crate::spans::bytes_from;
use amqp_types::{Identifier, PayloadSize, parse_long_long_uint, parse_short_uint};

/// The number in the first 2 bytes, where there are 2.
pub(crate) fn short_at(i: &[u8]) -> u16
    ensures { IsRead (judge_number bytes2 i.now) → judge_number bytes2 i.now ≡ took result 2 }
{
    match parse_short_uint(i) {
        Ok((_, number)) => number,
        Err(_) => 0,
    }
}

/// The number in the first 8 bytes, where there are 8.
fn long_long_at(i: &[u8]) -> u64
    ensures { IsRead (judge_number bytes8 i.now) → judge_number bytes8 i.now ≡ took result 8 }
{
    match parse_long_long_uint(i) {
        Ok((_, number)) => number,
        Err(_) => 0,
    }
}

/// The class id, the method id and the bytes of the fields of a method in a payload.
pub fn method_parts(payload: &[u8]) -> (Identifier, Identifier, &[u8])
    requires { 4 ≤ length payload.now }
    ensures { method_payload result.0 result.1 result.2.now ≡ payload.now }
{
    let class = short_at(payload);
    let behind = bytes_from(payload, 2);
    let id = short_at(behind);
    let slots = bytes_from(payload, 4);
    (class, id, slots)
}

/// The class id, the body size and the bytes of the properties of a content header in a payload, without its weight.
pub fn header_parts(payload: &[u8]) -> (Identifier, PayloadSize, &[u8])
    requires { 12 ≤ length payload.now }
    ensures same { judge_content_header (header_payload result.0 result.1 result.2.now)
        ≡ judge_content_header payload.now }
    ensures as_many { length (header_payload result.0 result.1 result.2.now) ≡ length payload.now }
{
    let class = short_at(payload);
    let behind = bytes_from(payload, 4);
    let size = long_long_at(behind);
    let properties = bytes_from(payload, 12);
    (class, size, properties)
}
