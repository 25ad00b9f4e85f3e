//! Bytes that are counted, or put, in one walk that says of a refusal only that there is one: so all frames are made. What was
//! tested once is put without those tests.

ghost use Rattle.std.specs.Prelude.{◌≡◌, ◌≤◌, ◌<◌, ◌*◌, Bool, true, false, length};
ghost use Rattle.std.specs.Prelude.{if◌then◌else◌};
ghost use Rattle.std.specs.Str.{is_utf8};
ghost use Rattle.amqp_types.specs.Strings.{short_string_bytes};
ghost use Rattle.amqp_fields_write.specs.Made.{made_if, made_long, made_span, made_text, span_in};
ghost use Rattle.amqp_fields_write.specs.Quick.{Fronts, Lays, LaysBytes};

use crate::parts::{has_room, plus, span};
use amqp_canonical::{eights_are_ascii, fours_are_ascii, is_text, put_ends, put_few};
use amqp_types::put_bytes;

/// No place: what is to be made is refused, or has no room.
pub(crate) const NONE: usize = usize::MAX;

/// What becomes of bytes that are made.
pub trait Sink {
    /// Whether they are put in a buffer, or counted alone.
    ghost puts: { Bool };

    /// Whether it is tested what they are made of. Else it was before: of what is refused nothing is known then.
    ghost tests: { Bool };

    /// Whether they are put.
    fn is_putting() -> bool
        ensures { result ≡ puts };

    /// Whether it is tested what they are made of.
    fn is_testing() -> bool
        ensures { result ≡ tests };
}

/// They are tested and counted.
pub struct Counting {}

/// They are tested and put.
pub struct Trying {}

/// They are put.
pub struct Putting {}

impl Sink for Counting {
    ghost puts = { false };

    ghost tests = { true };

    #[inline(always)]
    fn is_putting() -> bool {
        false
    }

    #[inline(always)]
    fn is_testing() -> bool {
        true
    }
}

impl Sink for Trying {
    ghost puts = { true };

    ghost tests = { true };

    #[inline(always)]
    fn is_putting() -> bool {
        true
    }

    #[inline(always)]
    fn is_testing() -> bool {
        true
    }
}

impl Sink for Putting {
    ghost puts = { true };

    ghost tests = { false };

    #[inline(always)]
    fn is_putting() -> bool {
        true
    }

    #[inline(always)]
    fn is_testing() -> bool {
        false
    }
}

/// Counts or puts bytes of a number, and returns the place after them; none where there is no room.
#[inline(always)]
pub(crate) fn lay<S: Sink>(buf: &mut [u8], at: usize, bytes: &[u8]) -> usize
    ensures { LaysBytes S.tests S.puts bytes.now buf.old buf.new at result }
{
    if !S::is_putting() {
        return plus(at, bytes.len());
    }
    if !has_room(buf.len(), at, bytes.len()) {
        return NONE;
    }
    put_bytes(buf, at, bytes)
}

/// The same of bytes of a string.
#[inline(always)]
pub(crate) fn lay_bytes<S: Sink>(buf: &mut [u8], at: usize, bytes: &[u8]) -> usize
    ensures { LaysBytes S.tests S.puts bytes.now buf.old buf.new at result }
{
    if !S::is_putting() {
        return plus(at, bytes.len());
    }
    if !has_room(buf.len(), at, bytes.len()) {
        return NONE;
    }
    put_few(buf, at, bytes)
}

/// The same of bytes that are made where a test holds.
#[inline(always)]
pub(crate) fn lay_if<S: Sink>(
    buf: &mut [u8],
    at: usize,
    index: usize,
    holds: bool,
    bytes: &[u8],
) -> usize
    ensures { Lays S.tests S.puts (made_if holds index bytes.now) buf.old buf.new at result }
{
    if S::is_testing() && !holds {
        return NONE;
    }
    lay::<S>(buf, at, bytes)
}

/// A length of 1 byte, and bytes of which there are N to 2 N.
#[inline(always)]
fn lay_ends<S: Sink, const N: usize>(buf: &mut [u8], at: usize, text: &[u8]) -> usize
    requires many { N ≤ length text.now }
    requires few { length text.now ≤ 2 * N }
    requires short { length text.now < 256 }
    ensures { LaysBytes S.tests S.puts (short_string_bytes text.now) buf.old buf.new at result }
{
    if !S::is_putting() {
        return plus(at, 1 + text.len());
    }
    if !has_room(buf.len(), at, 1 + text.len()) {
        return NONE;
    }
    let place = put_bytes(buf, at, &[text.len() as u8]);
    put_ends::<N>(buf, place, text)
}

/// Whether a test holds, where it is tested.
#[inline(always)]
fn holds<S: Sink>(test: bool) -> bool
    ensures { result ≡ (if S.tests then test else true) }
{
    !S::is_testing() || test
}

/// Whether bytes are UTF-8, where it is tested.
#[inline(always)]
fn is_fit<S: Sink>(text: &[u8]) -> bool
    ensures { result ≡ (if S.tests then is_utf8 text.now else true) }
{
    if S::is_testing() {
        return is_text(text);
    }
    true
}

/// A length of 1 byte, and any text. Apart, since most are short and ASCII.
#[inline(never)]
fn lay_any_text<S: Sink>(buf: &mut [u8], at: usize, index: usize, text: &[u8]) -> usize
    ensures { Lays S.tests S.puts (made_text index text.now) buf.old buf.new at result }
{
    if text.len() > 255 {
        return NONE;
    }
    if !is_fit::<S>(text) {
        return NONE;
    }
    let place = lay::<S>(buf, at, &[text.len() as u8]);
    lay_bytes::<S>(buf, place, text)
}

/// A length of 1 byte, and a text, of which most have eight to sixteen bytes.
#[inline(always)]
fn lay_short<S: Sink>(buf: &mut [u8], at: usize, index: usize, text: &[u8]) -> usize
    ensures { Lays S.tests S.puts (made_text index text.now) buf.old buf.new at result }
{
    let n = text.len();
    if 8 <= n && n <= 16 && holds::<S>(eights_are_ascii(text)) {
        return lay_ends::<S, 8>(buf, at, text);
    }
    if 4 <= n && n <= 7 && holds::<S>(fours_are_ascii(text)) {
        return lay_ends::<S, 4>(buf, at, text);
    }
    lay_any_text::<S>(buf, at, index, text)
}

/// A length of 4 bytes, and bytes.
#[inline(always)]
pub(crate) fn lay_long<S: Sink>(buf: &mut [u8], at: usize, index: usize, bytes: &[u8]) -> usize
    ensures { Lays S.tests S.puts (made_long index bytes.now) buf.old buf.new at result }
{
    if bytes.len() > u32::MAX as usize {
        return NONE;
    }
    let place = lay::<S>(buf, at, &(bytes.len() as u32).to_be_bytes());
    lay_bytes::<S>(buf, place, bytes)
}

/// A length of 1 byte, and the text of a span.
#[inline(always)]
pub(crate) fn lay_text<S: Sink>(
    buf: &mut [u8],
    at: usize,
    pool: &[u8],
    index: usize,
    start: u32,
    count: u32,
) -> usize
    ensures { Lays S.tests S.puts
        (made_span (made_text index) index (span_in pool.now start count))
        buf.old buf.new at result }
{
    match span(pool, start, count) {
        Some(text) => lay_short::<S>(buf, at, index, text),
        None => NONE,
    }
}

/// A length of 4 bytes, and the bytes of a span.
#[inline(always)]
pub(crate) fn lay_long_string<S: Sink>(
    buf: &mut [u8],
    at: usize,
    pool: &[u8],
    index: usize,
    start: u32,
    count: u32,
) -> usize
    ensures { Lays S.tests S.puts
        (made_span (made_long index) index (span_in pool.now start count))
        buf.old buf.new at result }
{
    match span(pool, start, count) {
        Some(bytes) => lay_long::<S>(buf, at, index, bytes),
        None => NONE,
    }
}

/// A length of 4 bytes in front of what was made from a place to another one, which is returned.
#[inline(always)]
#[tactic(auto, using(crate::proofs::Quick::bytes_laid))]
pub(crate) fn lay_length<S: Sink>(buf: &mut [u8], at: usize, start: usize, end: usize) -> usize
    ensures { Fronts S.tests S.puts start end buf.old buf.new at result }
{
    let n = end.saturating_sub(start);
    if n > u32::MAX as usize {
        return NONE;
    }
    if lay::<S>(buf, at, &(n as u32).to_be_bytes()) == NONE {
        return NONE;
    }
    end
}
