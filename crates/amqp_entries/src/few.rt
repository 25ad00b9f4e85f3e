//! Short texts, which are tested by words.

ghost use Rattle.std.specs.Prelude.{◌≡◌, ◌≤◌, ◌^◌, IfOk, IsTrue, length};
ghost use Rattle.std.specs.Str.{IsAscii, is_utf8};
ghost use Rattle.amqp_types.specs.Strings.{short_string_bytes};
ghost use Rattle.amqp_entries.specs.Flaws.{size_or, text_flaw};
ghost use Rattle.amqp_entries.specs.Sizes.{IsSize};

use crate::errors::PutError;
use amqp_canonical::{eights_are_ascii, fours_are_ascii, is_text, sixteens_are_ascii};

/// Whether few bytes are ASCII; false for many. Most texts have eight to sixteen bytes, which are tested first.
#[inline(always)]
fn are_few_ascii(bytes: &[u8]) -> bool
    ensures few { IsTrue result → length bytes.now ≤ 32 }
    ensures ascii { IsTrue result → IsAscii bytes.now }
{
    let n = bytes.len();
    if 8 <= n && n <= 16 {
        return eights_are_ascii(bytes);
    }
    if 4 <= n && n <= 8 {
        return fours_are_ascii(bytes);
    }
    if 17 <= n && n <= 32 {
        return sixteens_are_ascii(bytes);
    }
    n <= 3 && bytes.is_ascii()
}

/// Whether bytes are ASCII, of which there are four to sixteen.
#[inline(always)]
pub(crate) fn is_short_ascii(bytes: &[u8]) -> bool
    ensures some { IsTrue result → 4 ≤ length bytes.now }
    ensures few { IsTrue result → length bytes.now ≤ 16 }
    ensures ascii { IsTrue result → IsAscii bytes.now }
{
    let n = bytes.len();
    if 8 <= n && n <= 16 {
        return eights_are_ascii(bytes);
    }
    4 <= n && n <= 8 && fours_are_ascii(bytes)
}

/// Whether a key has four to eight bytes, of ASCII.
#[inline(always)]
pub(crate) fn is_key_of_fours(key: &[u8]) -> bool
    ensures some { IsTrue result → 4 ≤ length key.now }
    ensures few { IsTrue result → length key.now ≤ 8 }
    ensures ascii { IsTrue result → IsAscii key.now }
{
    let n = key.len();
    4 <= n && n <= 8 && fours_are_ascii(key)
}

/// Whether a key has eight to sixteen bytes, of ASCII.
#[inline(always)]
pub(crate) fn is_key_of_eights(key: &[u8]) -> bool
    ensures some { IsTrue result → 8 ≤ length key.now }
    ensures few { IsTrue result → length key.now ≤ 16 }
    ensures ascii { IsTrue result → IsAscii key.now }
{
    let n = key.len();
    8 <= n && n <= 16 && eights_are_ascii(key)
}

/// Whether a key has four to sixteen bytes, of ASCII. Many have four to eight, which are tested first.
#[inline(always)]
pub(crate) fn is_short_key(key: &[u8]) -> bool
    ensures some { IsTrue result → 4 ≤ length key.now }
    ensures ascii { IsTrue result → IsAscii key.now }
{
    let n = key.len();
    if 4 <= n && n <= 8 {
        return fours_are_ascii(key);
    }
    is_key_of_eights(key)
}

/// Whether bytes are UTF-8, which are many, or not ASCII.
#[inline(never)]
fn is_any_text(bytes: &[u8]) -> bool
    ensures { result ≡ is_utf8 bytes.now }
{
    is_text(bytes)
}

/// Whether bytes are UTF-8, in fewer instructions than `is_text` where they are at most 32 of ASCII.
#[inline(always)]
pub fn is_short_text(bytes: &[u8]) -> bool
    ensures { result ≡ is_utf8 bytes.now }
{
    if are_few_ascii(bytes) {
        return true;
    }
    is_any_text(bytes)
}

/// What is said to be the size of a short string that is not put: more than any frame has.
const TOO_MANY: usize = 4294967296;

/// How many bytes a short string has with its length. Apart, since most are short and ASCII; a number goes through no
/// memory.
#[inline(never)]
fn any_text_size(text: &[u8]) -> usize
    ensures size { IsSize (text_flaw text.now) (short_string_bytes text.now) result }
    ensures bound { result ≤ 2 ^ 32 }
{
    if text.len() > 255 {
        return TOO_MANY;
    }
    if !is_short_text(text) {
        return TOO_MANY;
    }
    1 + text.len()
}

/// How many bytes a short string has with its length; 2^32 where it is not put, as no frame has.
#[inline(always)]
fn quick_text_size(text: &[u8]) -> usize
    ensures size { IsSize (text_flaw text.now) (short_string_bytes text.now) result }
    ensures bound { result ≤ 2 ^ 32 }
{
    if is_short_ascii(text) {
        return 1 + text.len();
    }
    any_text_size(text)
}

/// The same as a call, for texts of which there may be many.
#[inline(never)]
pub fn called_text_size(text: &[u8]) -> usize
    ensures size { IsSize (text_flaw text.now) (short_string_bytes text.now) result }
    ensures bound { result ≤ 2 ^ 32 }
{
    quick_text_size(text)
}

/// How many bytes a short string has with its length, or why it is not put.
#[inline(always)]
pub fn text_size(text: &[u8]) -> Result<usize, PutError>
    ensures size { result ≡ size_or (text_flaw text.now) (short_string_bytes text.now) }
    ensures bound { IfOk result (λ n. n ≤ 256) }
{
    let size = quick_text_size(text);
    if size <= 256 {
        return Ok(size);
    }
    if text.len() > 255 {
        return Err(PutError::TooLong);
    }
    Err(PutError::NotUtf8)
}
