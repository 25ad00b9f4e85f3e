//! Decoding and encoding strings and byte arrays: from the front of a slice, at a place of a slice, and
//! at the end of a vector.

ghost use Rattle.std.specs.Prelude.{◌≡◌, ◌+◌, ◌^◌, ◌≤◌, ◌<◌, false, true};
ghost use Rattle.std.specs.Prelude.{length, Ok, IfOk, IsOk, MatchOption};
ghost use Rattle.std.specs.Str.{is_utf8};
ghost use Rattle.amqp_types.specs.Answers.{Answers, AnswersFully};
ghost use Rattle.amqp_types.specs.Strings.{short_string_bytes, judge_short_string, with_length};
ghost use Rattle.amqp_types.specs.Strings.{long_string_size, judge_long_string};
ghost use Rattle.amqp_types.specs.Writing.{Puts, Appends};

use crate::byte_array::ByteArray;
use crate::errors::{GenError, ParserError};
use crate::generation::{put_bytes, put_long_uint};
use crate::growing::grow;
use crate::long_string::LongString;
use crate::parsing::parse_long_uint;
use crate::short_string::ShortString;
use std::alloc::Global;
use std::str;

/// The text that these bytes are, where they are UTF-8.
fn text_of(bytes: &[u8]) -> Option<&str>
    ensures { MatchOption result (is_utf8 bytes.now ≡ false)
        (λ text. (text.now ≡ bytes.now) × (is_utf8 bytes.now ≡ true)) }
{
    match str::from_utf8(bytes) {
        Ok(text) => Some(text),
        Err(_) => None,
    }
}

/// Decodes a short string and borrows its text; `NotUtf8` where the bytes are not UTF-8.
#[tactic(auto, unfolding(crate::specs::Strings::judge_short_string))]
pub fn parse_short_str(i: &[u8]) -> Result<(usize, &str), ParserError>
    ensures judged { AnswersFully (λ text. text.now) result (judge_short_string i.now) }
    ensures used { IfOk result (λ found. (0 < found.0) × (found.0 ≤ length i.now)) }
{
    match i {
        [] => Err(ParserError::Incomplete),
        [n, rest @ ..] => {
            let n = *n as usize;
            if rest.len() < n {
                return Err(ParserError::Incomplete);
            }
            match text_of(&rest[..n]) {
                Some(text) => Ok((1 + n, text)),
                None => Err(ParserError::NotUtf8),
            }
        }
    }
}

/// Decodes a length of 4 bytes and borrows that many bytes.
#[tactic(auto, unfolding(crate::specs::Strings::judge_long_string))]
pub fn parse_long_bytes(i: &[u8]) -> Result<(usize, &[u8]), ParserError>
    ensures judged { AnswersFully (λ bytes. bytes.now) result (judge_long_string i.now) }
    ensures used { IfOk result (λ found. found.0 ≤ length i.now) }
{
    let (at, n) = parse_long_uint(i)?;
    let n = n as usize;
    if i.len() - at < n {
        return Err(ParserError::Incomplete);
    }
    Ok((at + n, &i[at..at + n]))
}

/// Decodes the length of a table and borrows the bytes of its entries, which it does not look into.
pub fn parse_table_bytes(i: &[u8]) -> Result<(usize, &[u8]), ParserError>
    ensures judged { AnswersFully (λ bytes. bytes.now) result (judge_long_string i.now) }
    ensures used { IfOk result (λ found. found.0 ≤ length i.now) }
{
    parse_long_bytes(i)
}

/// Decodes a short string and copies its text; `NotUtf8` where the bytes are not UTF-8.
#[tactic(auto, unfolding(crate::specs::Strings::judge_short_string))]
pub fn parse_short_string(alloc: Global, i: &[u8]) -> Result<(usize, ShortString), ParserError>
    ensures judged { Answers (λ text. text) result (judge_short_string i.now) }
    ensures used { IfOk result (λ found. (0 < found.0) × (found.0 ≤ length i.now)) }
{
    let (n, text) = parse_short_str(i)?;
    match ShortString::new(alloc, text) {
        Ok(text) => Ok((n, text)),
        Err(_) => Err(ParserError::NoMemory),
    }
}

/// Decodes a long string and copies its bytes.
pub fn parse_long_string(alloc: Global, i: &[u8]) -> Result<(usize, LongString), ParserError>
    ensures judged { Answers (λ bytes. bytes) result (judge_long_string i.now) }
    ensures used { IfOk result (λ found. found.0 ≤ length i.now) }
{
    let (n, bytes) = parse_long_bytes(i)?;
    Ok((n, LongString::new(alloc, bytes)?))
}

/// Decodes a byte array, which is encoded as a long string is, and copies its bytes.
pub fn parse_byte_array(alloc: Global, i: &[u8]) -> Result<(usize, ByteArray), ParserError>
    ensures judged { Answers (λ bytes. bytes) result (judge_long_string i.now) }
    ensures used { IfOk result (λ found. found.0 ≤ length i.now) }
{
    let (n, bytes) = parse_long_bytes(i)?;
    Ok((n, ByteArray::new(alloc, bytes)?))
}

/// The size of a short string in bytes, with the byte of its length.
pub fn size_short_string(value: &ShortString) -> Result<u64, GenError>
    ensures size { result ≡ Ok (length (short_string_bytes value.now)) }
    ensures bound { length (short_string_bytes value.now) ≤ 256 }
{
    Ok(1 + value.len() as u64)
}

/// Puts a short string at a place of a slice, and returns the place after it.
pub fn put_short_string(buf: &mut [u8], at: usize, value: &ShortString) -> usize
    requires room { at + length (short_string_bytes value.now) ≤ length buf.old }
    ensures { Puts buf.old buf.new at (short_string_bytes value.now) result }
{
    let place = put_bytes(buf, at, &[value.len() as u8]);
    put_bytes(buf, place, value.as_str().as_bytes())
}

/// Appends a short string to a vector.
pub fn gen_short_string(
    _alloc: Global,
    out: &mut Vec<u8>,
    value: &ShortString,
) -> Result<(), GenError>
    ensures { Appends out.old.items out.new.items
        (Ok (length (short_string_bytes value.now))) (short_string_bytes value.now) result }
{
    let at = grow(out, 1 + value.len() as u64)?;
    put_short_string(out, at, value);
    Ok(())
}

/// The size of a long string in bytes, with the 4 bytes of its length; `TooLong` where these do not hold it.
pub fn size_long_string(value: &[u8]) -> Result<u64, GenError>
    ensures size { result ≡ long_string_size value.now }
    ensures bound { IfOk result (λ n. n < 2 ^ 33) }
{
    if value.len() > u32::MAX as usize {
        return Err(GenError::TooLong);
    }
    Ok(4 + value.len() as u64)
}

/// Puts a long string at a place of a slice, and returns the place after it.
pub fn put_long_string(buf: &mut [u8], at: usize, value: &[u8]) -> usize
    requires fits { IsOk (long_string_size value.now) }
    requires room { at + length (with_length value.now) ≤ length buf.old }
    ensures { Puts buf.old buf.new at (with_length value.now) result }
{
    let place = put_long_uint(buf, at, &(value.len() as u32));
    put_bytes(buf, place, value)
}

/// Appends a long string to a vector.
pub fn gen_long_string(_alloc: Global, out: &mut Vec<u8>, value: &[u8]) -> Result<(), GenError>
    ensures { Appends out.old.items out.new.items
        (long_string_size value.now) (with_length value.now) result }
{
    let size = size_long_string(value)?;
    let at = grow(out, size)?;
    put_long_string(out, at, value);
    Ok(())
}

/// The size of a byte array in bytes, with the 4 bytes of its length; `TooLong` where these do not hold it.
pub fn size_byte_array(value: &ByteArray) -> Result<u64, GenError>
    ensures size { result ≡ long_string_size value.now }
    ensures bound { IfOk result (λ n. n < 2 ^ 33) }
{
    size_long_string(value.as_slice())
}

/// Puts a byte array at a place of a slice, and returns the place after it.
pub fn put_byte_array(buf: &mut [u8], at: usize, value: &ByteArray) -> usize
    requires fits { IsOk (long_string_size value.now) }
    requires room { at + length (with_length value.now) ≤ length buf.old }
    ensures { Puts buf.old buf.new at (with_length value.now) result }
{
    put_long_string(buf, at, value.as_slice())
}

/// Appends a byte array to a vector.
pub fn gen_byte_array(alloc: Global, out: &mut Vec<u8>, value: &ByteArray) -> Result<(), GenError>
    ensures { Appends out.old.items out.new.items
        (long_string_size value.now) (with_length value.now) result }
{
    gen_long_string(alloc, out, value.as_slice())
}
