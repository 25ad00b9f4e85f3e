//! What is reported to C of what was put or refused.

ghost use Rattle.std.specs.Prelude.{◌≡◌};
ghost use Rattle.amqp_c_put.specs.Reports.{content_status, refused, report_of};

use amqp_entries::PutError;
use amqp_types::ParserError;

/// How many bytes were put, or why none. In C it has 16 bytes and no padding.
#[repr(C)]
#[derive(Clone, Copy, Debug)]
pub struct PutReport {
    /// How many bytes, of an appended entry or value those in front of it too, were put, or at status 40, how many the
    /// buffer needs; else 0.
    pub length: u64,

    /// 0 where all is put, 40 where the buffer is too short, or why nothing is.
    pub status: u32,

    /// Kept for later; 0.
    pub unused: u32,
}

/// The status of a content that is not decoded.
#[inline(always)]
fn content_status(error: ParserError) -> u32
    ensures { result ≡ content_status error }
{
    match error {
        ParserError::NotUtf8 => 18,
        ParserError::UnknownTag => 19,
        ParserError::TooDeep => 20,
        _ => 16,
    }
}

/// Nothing was put.
#[inline(always)]
pub(crate) fn refused(status: u32) -> PutReport
    ensures { result ≡ refused status }
{
    PutReport {
        length: 0,
        status,
        unused: 0,
    }
}

/// What is reported.
#[inline(always)]
pub(crate) fn report(put: Result<usize, PutError>) -> PutReport
    ensures { result ≡ report_of put }
{
    let (length, status) = match put {
        Ok(n) => (n, 0),
        Err(PutError::TooLong) => (0, 42),
        Err(PutError::NotUtf8) => (0, 18),
        Err(PutError::Content(error)) => (0, content_status(error)),
        Err(PutError::TooLarge) => (0, 12),
        Err(PutError::BufferTooSmall(n)) => (n, 40),
    };
    PutReport {
        length: length as u64,
        status,
        unused: 0,
    }
}
