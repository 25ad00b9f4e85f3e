//! Judging what fills a table or an array, and putting it canonically, with its length in front.

ghost use Rattle.std.specs.Prelude.{◌≡◌, ◌≤◌, ◌<◌, ◌+◌, ◌^◌, None, length};
ghost use Rattle.amqp_types.specs.Strings.{with_length};
ghost use Rattle.amqp_types.specs.Writing.{Puts};
ghost use Rattle.amqp_canonical.specs.Writes.{IsFilled};
ghost use Rattle.amqp_entries.specs.Contents.{array_flaw, canonical_entries, canonical_values};
ghost use Rattle.amqp_entries.specs.Contents.{counted_entries, counted_values, read_entries};
ghost use Rattle.amqp_entries.specs.Contents.{read_values, table_flaw};
ghost use Rattle.amqp_entries.specs.Found.{IsFoundArray, IsFoundTable};

use crate::errors::PutError;
use crate::ordered::is_ascending;
use amqp_canonical::{
    EntryMark, Sure, Tested, judge_entries, judge_values, put_entries, put_values,
};
use amqp_types::{put_bytes, put_long_uint};

/// How many marks of entries the stack holds while content is put that is in no order. A table with more entries takes
/// quadratic time.
const MARKS: usize = 256;

/// What is said to be the size of a content that is not put: more than any has.
const NOT_PUT: usize = 4294967296;

/// What a content was found to be: two numbers, so that none is passed in memory. Why it is not put is told when it is asked.
#[derive(Clone, Copy)]
pub(crate) struct Found {
    /// 1 where it is its canonical bytes, else 0.
    pub(crate) canonical: usize,

    /// How many bytes its canonical bytes are; 2^32 where it is not put.
    pub(crate) size: usize,
}

/// What is found of content that is not put.
#[inline(always)]
fn refused() -> Found
    ensures { result ≡ record { canonical = 0; size = 2 ^ 32 } }
{
    Found {
        canonical: 0,
        size: NOT_PUT,
    }
}

/// Why the content of a table is not put. Apart, since most is.
#[inline(never)]
pub(crate) fn table_refusal(content: &[u8], depth_left: usize) -> Option<PutError>
    ensures { result ≡ table_flaw depth_left content.now }
{
    if content.len() > u32::MAX as usize {
        return Some(PutError::TooLong);
    }
    match judge_entries(content, depth_left) {
        Ok(_) => None,
        Err(fault) => Some(PutError::Content(fault)),
    }
}

/// Why the content of an array is not put.
#[inline(never)]
pub(crate) fn array_refusal(content: &[u8], depth_left: usize) -> Option<PutError>
    ensures { result ≡ array_flaw depth_left content.now }
{
    if content.len() > u32::MAX as usize {
        return Some(PutError::TooLong);
    }
    match judge_values(content, depth_left) {
        Ok(_) => None,
        Err(fault) => Some(PutError::Content(fault)),
    }
}

/// How many bytes the canonical bytes of a table's content are.
#[inline(never)]
fn entries_size(content: &[u8], depth_left: usize) -> usize
    requires read { IsFilled (read_entries depth_left content.now) }
    requires few { length content.now < 2 ^ 32 }
    ensures { result ≡ length (canonical_entries depth_left content.now) }
{
    let mut scratch = [EntryMark::default(); MARKS];
    let mut nothing = [0u8; 0];
    put_entries::<Tested>(&mut nothing, 0, &mut scratch, content, depth_left)
}

/// How many bytes the canonical bytes of an array's content are.
#[inline(never)]
fn values_size(content: &[u8], depth_left: usize) -> usize
    requires read { IsFilled (read_values depth_left content.now) }
    requires few { length content.now < 2 ^ 32 }
    ensures { result ≡ length (canonical_values depth_left content.now) }
{
    let mut scratch = [EntryMark::default(); MARKS];
    let mut nothing = [0u8; 0];
    put_values::<Tested>(&mut nothing, 0, &mut scratch, content, depth_left)
}

/// Judges what fills a table, in whose values tables and arrays may nest `depth_left` deep.
#[inline(always)]
pub(crate) fn find_table(content: &[u8], depth_left: usize) -> Found
    ensures { IsFoundTable depth_left content.now result }
{
    if content.len() > u32::MAX as usize {
        return refused();
    }
    if is_ascending(content, depth_left) {
        return Found {
            canonical: 1,
            size: content.len(),
        };
    }
    match judge_entries(content, depth_left) {
        Ok(canonical) => {
            if canonical {
                return Found {
                    canonical: 1,
                    size: content.len(),
                };
            }
            Found {
                canonical: 0,
                size: entries_size(content, depth_left),
            }
        }
        Err(_) => refused(),
    }
}

/// Judges what fills an array, in whose values tables and arrays may nest `depth_left` deep.
#[inline(always)]
pub(crate) fn find_array(content: &[u8], depth_left: usize) -> Found
    ensures { IsFoundArray depth_left content.now result }
{
    if content.len() > u32::MAX as usize {
        return refused();
    }
    match judge_values(content, depth_left) {
        Ok(canonical) => {
            if canonical {
                return Found {
                    canonical: 1,
                    size: content.len(),
                };
            }
            Found {
                canonical: 0,
                size: values_size(content, depth_left),
            }
        }
        Err(_) => refused(),
    }
}

/// Puts the canonical bytes of a table's content with marks on the stack.
#[inline(never)]
fn rewrite_entries(buf: &mut [u8], at: usize, content: &[u8], depth_left: usize) -> usize
    requires read { IsFilled (read_entries depth_left content.now) }
    requires room { at + length (canonical_entries depth_left content.now) ≤ length buf.old }
    ensures { Puts buf.old buf.new at (canonical_entries depth_left content.now) result }
{
    let mut scratch = [EntryMark::default(); MARKS];
    put_entries::<Sure>(buf, at, &mut scratch, content, depth_left)
}

/// Puts the canonical bytes of an array's content with marks on the stack.
#[inline(never)]
fn rewrite_values(buf: &mut [u8], at: usize, content: &[u8], depth_left: usize) -> usize
    requires read { IsFilled (read_values depth_left content.now) }
    requires room { at + length (canonical_values depth_left content.now) ≤ length buf.old }
    ensures { Puts buf.old buf.new at (canonical_values depth_left content.now) result }
{
    let mut scratch = [EntryMark::default(); MARKS];
    put_values::<Sure>(buf, at, &mut scratch, content, depth_left)
}

/// Puts canonical content as it is, its length first. It mostly is no short text, so the bytes are copied by a call.
#[inline(always)]
fn put_canonical(buf: &mut [u8], at: usize, content: &[u8]) -> usize
    requires few { length content.now < 2 ^ 32 }
    requires room { at + length (with_length content.now) ≤ length buf.old }
    ensures { Puts buf.old buf.new at (with_length content.now) result }
{
    let place = put_long_uint(buf, at, &(content.len() as u32));
    put_bytes(buf, place, content)
}

/// Puts a table by what fills it, its length first. Canonical content is copied.
#[inline(always)]
pub(crate) fn put_table_content(
    buf: &mut [u8],
    at: usize,
    content: &[u8],
    found: Found,
    depth_left: usize,
) -> usize
    requires found { IsFoundTable depth_left content.now found }
    requires fits { table_flaw depth_left content.now ≡ None }
    requires room { at + length (counted_entries depth_left content.now) ≤ length buf.old }
    ensures { Puts buf.old buf.new at (counted_entries depth_left content.now) result }
{
    if found.canonical == 1 {
        return put_canonical(buf, at, content);
    }
    let place = put_long_uint(buf, at, &(found.size as u32));
    rewrite_entries(buf, place, content, depth_left)
}

/// Puts an array by what fills it, its length first. Canonical content is copied.
#[inline(always)]
pub(crate) fn put_array_content(
    buf: &mut [u8],
    at: usize,
    content: &[u8],
    found: Found,
    depth_left: usize,
) -> usize
    requires found { IsFoundArray depth_left content.now found }
    requires fits { array_flaw depth_left content.now ≡ None }
    requires room { at + length (counted_values depth_left content.now) ≤ length buf.old }
    ensures { Puts buf.old buf.new at (counted_values depth_left content.now) result }
{
    if found.canonical == 1 {
        return put_canonical(buf, at, content);
    }
    let place = put_long_uint(buf, at, &(found.size as u32));
    rewrite_values(buf, place, content, depth_left)
}
