//! The buffer of a reader: where the held bytes lie in it, and reading more after them.

ghost use Rattle.std.specs.Prelude.{◌≡◌, ◌-◌, ◌<◌, length};
ghost use Rattle.amqp_types.specs.Judging.{IsBytes};
ghost use Rattle.amqp_stream.specs.Changes.{◌⇒◌};
ghost use Rattle.amqp_stream.specs.Reading.{ReadsMore};
ghost use Rattle.amqp_stream.specs.Spans.{IsSpan, held_in};

use crate::source::{Source, SourceFault};

/// Where the held bytes lie in the buffer.
#[derive(Clone, Copy)]
pub(crate) struct Span {
    /// The place of the first held byte.
    pub start: usize,

    /// The place after the last held byte.
    pub end: usize,
}

/// The held bytes.
#[inline(always)]
pub(crate) fn held_of(buf: &[u8], span: Span) -> &[u8]
    requires span { IsSpan span (length buf.now) }
    ensures held { result.now ≡ held_in buf.now span }
    ensures bytes { IsBytes result.now }
{
    &buf[span.start..span.end]
}

/// Moves the held bytes to the front, where no room is left after them.
fn make_room(buf: &mut [u8], span: &mut Span)
    requires span { IsSpan span.old (length buf.old) }
    requires room { span.old.end - span.old.start < length buf.old }
    ensures span { IsSpan span.new (length buf.new) }
    ensures room { span.new.end < length buf.new }
    ensures held { held_in buf.new span.new ≡ held_in buf.old span.old }
{
    if span.end == buf.len() {
        buf.copy_within(span.start..span.end, 0);
        span.end -= span.start;
        span.start = 0;
    }
}

/// Reads after the held bytes, which may move to the front for it.
pub(crate) fn read_more<S: Source>(
    source: &mut S,
    buf: &mut [u8],
    span: &mut Span,
) -> Result<usize, SourceFault>
    requires span { IsSpan span.old (length buf.old) }
    requires room { span.old.end - span.old.start < length buf.old }
    ensures span { IsSpan span.new (length buf.new) }
    ensures reads { ReadsMore (S.supply source.old ⇒ S.supply source.new)
        (held_in buf.old span.old ⇒ held_in buf.new span.new) result }
{
    make_room(buf, span);
    let end = span.end;
    match source.read(&mut buf[end..]) {
        Ok(count) => {
            span.end += count;
            Ok(count)
        }
        Err(fault) => Err(fault),
    }
}
