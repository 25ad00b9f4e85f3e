//! From a reader to a vector: a call over a reader and a writer of the system, and what the vector has.

ghost use Rattle.std.specs.Prelude.{◌≡◌, IfSome, IfOk};
ghost use Rattle.amqp_types.specs.Levels.{plain};
ghost use Rattle.amqp_stream.specs.Canonicalizing.{canon_of};

use amqp_stream::{StdSink, StdSource, StreamError, canonicalize};
use amqp_types::ChunkSize;
use std::alloc::Global;
use std::io::Read;

/// The canonical bytes of what a reader gives, in a vector.
pub fn canonicalized<R: Read + Drop>(
    alloc: Global,
    reader: R,
    max_payload: ChunkSize,
) -> Result<Vec<u8>, StreamError>
    ensures { IfOk result (λ out. IfSome (R.remaining reader)
        (λ bytes. out.items ≡ canon_of plain max_payload bytes)) }
{
    let mut source = StdSource::new(reader);
    let mut sink = StdSink::new(Vec::new(alloc));
    canonicalize(alloc, &mut source, &mut sink, max_payload, u64::MAX)?;
    if sink.unflushed() > 0 {
        return Err(StreamError::WriteFault);
    }
    Ok(sink.into_inner())
}
