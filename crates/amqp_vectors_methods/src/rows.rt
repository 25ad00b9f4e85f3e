//! How a method and the bytes of its payload are tested.

ghost use Rattle.std.specs.Prelude.{◌≡◌, true, length, IsOk};

use crate::{access, basic, channel, confirm, connection, exchange, queue, tx};
use amqp_protocol::{AMQPClass, gen_class, parse_class, put_class, size_class};
use amqp_types::{GenError, ParserError};
use amqp_vectors::asking::answers;
use std::alloc::Global;
use std::test::Fail;

/// The bytes after an id.
pub fn after_id(bytes: &[u8]) -> &[u8] {
    bytes.get(2..).unwrap_or_default()
}

/// Whether a gen call has appended these bytes to an empty vector. Zeros then stand in their place.
pub fn is_appended(appended: Result<(), GenError>, out: &mut Vec<u8>, written: &[u8]) -> bool
    ensures done { result ≡ true → IsOk appended }
    ensures room { length out.new.items ≡ length out.old.items }
{
    let same = out.as_slice() == written;
    out.fill(0);
    same && appended.is_ok()
}

/// Whether a parse call has read the value from all of the bytes.
fn is_read<M: PartialEq + Drop>(
    read: Result<(usize, M), ParserError>,
    value: &M,
    bytes: &[u8],
) -> bool {
    match read {
        Ok(read) => read.0 == bytes.len() && read.1 == *value,
        Err(_) => false,
    }
}

/// Fails unless the value is put up to this place as the first bytes, measured, and read from the others. The vector is
/// empty then.
pub fn agrees<M: PartialEq + Drop>(
    end: usize,
    out: &mut Vec<u8>,
    size: Result<u64, GenError>,
    read: Result<(usize, M), ParserError>,
    value: &M,
    written: &[u8],
    bytes: &[u8],
) -> Result<(), Fail> {
    let is_put = (end, out.as_slice()) == (written.len(), written);
    out.clear();
    let is_measured = size == Ok(written.len() as u64);
    let found = [is_put, is_measured, is_read(read, value, bytes)];
    if found == [true; 3] {
        return Ok(());
    }
    Err(Fail::new(format_args!("{written:?}: appended and put, measured, read: {found:?}")))
}

/// Calls the calls of a value, and fails unless they agree with its case. Where nothing is appended, nothing is put.
macro_rules! agree {
    ($alloc:ident, $value:ident, $out:ident, $written:ident, $bytes:ident; $gen:ident, $size:ident, $put:ident, $parse:ident) => {{
        let appended = $gen($alloc, $out, $value);
        let end = if is_appended(appended, $out, $written) { $put($out, 0, $value) } else { 0 };
        agrees(end, $out, $size($value), $parse($alloc, $bytes), $value, $written, $bytes)
    }};
}

pub(crate) use agree;

/// Passes a value by reference to its calls. Whoever owns one of many variants in place pays for each of them in the
/// proof, and here the type is none of them.
fn by_reference<M: Drop, F: FnOnce(&M, &mut Vec<u8>) -> Result<(), Fail>>(
    alloc: Global,
    value: M,
    calls: F,
) -> Result<(), Fail>
    requires { F.IsAlwaysCallable calls }
{
    calls(&value, &mut Vec::new(alloc))
}

/// Fails unless the method comes back from its payload through the calls of all classes, those of its
/// class, and its own.
pub fn comes_back(alloc: Global, class: AMQPClass, payload: &[u8]) -> Result<(), Fail> {
    by_reference(alloc, class, |class, out| {
        of_any_class(alloc, class, out, payload)
    })
}

fn of_any_class(
    alloc: Global,
    class: &AMQPClass,
    out: &mut Vec<u8>,
    payload: &[u8],
) -> Result<(), Fail> {
    agree!(alloc, class, out, payload, payload; gen_class, size_class, put_class, parse_class)?;
    answers(class.copy(alloc), class)?;
    match class {
        AMQPClass::Basic(method) => basic::of_class(alloc, method, out, payload),
        AMQPClass::Connection(method) => connection::of_class(alloc, method, out, payload),
        AMQPClass::Channel(method) => channel::of_class(alloc, method, out, payload),
        AMQPClass::Access(method) => access::of_class(alloc, method, out, payload),
        AMQPClass::Exchange(method) => exchange::of_class(alloc, method, out, payload),
        AMQPClass::Queue(method) => queue::of_class(alloc, method, out, payload),
        AMQPClass::Tx(method) => tx::of_class(alloc, method, out, payload),
        AMQPClass::Confirm(method) => confirm::of_class(alloc, method, out, payload),
    }
}
