//! Laws of equality: two errors are equal exactly where contracts see the same.

ghost use Rattle.std.specs.Prelude.{◌≡◌, ◌↔◌, IsTrue};

use crate::errors::{ReadError, StreamError};
use crate::sink::SinkFault;
use crate::source::SourceFault;

/// Errors of reading are equal exactly where they are the same.
pub fn equal_read_errors(a: &ReadError, b: &ReadError) -> bool
    ensures { IsTrue result ↔ (a.now ≡ b.now) }
{
    a == b
}

/// Errors of streams are equal exactly where they are the same.
pub fn equal_stream_errors(a: &StreamError, b: &StreamError) -> bool
    ensures { IsTrue result ↔ (a.now ≡ b.now) }
{
    a == b
}

/// Failed reads are all the same.
pub fn equal_source_faults(a: &SourceFault, b: &SourceFault) -> bool
    ensures { IsTrue result ↔ (a.now ≡ b.now) }
{
    a == b
}

/// Failed writes are all the same.
pub fn equal_sink_faults(a: &SinkFault, b: &SinkFault) -> bool
    ensures { IsTrue result ↔ (a.now ≡ b.now) }
{
    a == b
}
