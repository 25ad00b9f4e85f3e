//! Content in ascending key order, found canonical in one quick pass: the entries that `append_entry` makes in that order,
//! whose keys have four to sixteen bytes of ASCII.

ghost use Rattle.std.specs.Prelude.{◌≡◌, ◌≤◌, ◌<◌, ◌+◌, ◌^◌, true, length, Some, IfSome, IsTrue};
ghost use Rattle.amqp_types.specs.Judging.{took};
ghost use Rattle.amqp_types.specs.Strings.{judge_short_string};
ghost use Rattle.amqp_types.specs.ValueJudging.{judge_entry, judge_value};
ghost use Rattle.amqp_canonical.specs.Judgements.{AreCanonicalEntries, DecodesAsEntry};
ghost use Rattle.amqp_canonical.specs.Judgements.{Fills};
ghost use Rattle.amqp_canonical.specs.Leads.{leading};
ghost use Rattle.amqp_entries.specs.Ascending.{AscendingTo};
ghost use Rattle.amqp_entries.specs.Contents.{read_entries};
ghost use Rattle.amqp_entries.specs.Plain.{IsCanonicalFront, IsCanonicalPart, IsEntryFront};
ghost use Rattle.amqp_entries.specs.Plain.{number_size_after};

use crate::few::is_short_key;
use amqp_types::{
    TAG_BOOLEAN, TAG_DOUBLE, TAG_FLOAT, TAG_LONG_INT, TAG_LONG_LONG_INT, TAG_LONG_STRING,
    TAG_LONG_UINT, TAG_SHORT_INT, TAG_SHORT_SHORT_INT, TAG_SHORT_SHORT_UINT, TAG_SHORT_UINT,
    TAG_TIMESTAMP, are_bytes, parse_long_bytes,
};

/// The key at the front, where it has four to sixteen bytes of ASCII.
#[inline(always)]
fn short_key(i: &[u8]) -> Option<&[u8]>
    ensures key { IfSome result (λ key.
        judge_short_string i.now ≡ took key.now (1 + length key.now)) }
    ensures some { IfSome result (λ key. 4 ≤ length key.now) }
    ensures few { IfSome result (λ key. 1 + length key.now ≤ length i.now) }
{
    match i {
        [] => None,
        [n, rest @ ..] => {
            let n = *n as usize;
            if rest.len() < n {
                return None;
            }
            let key = &rest[..n];
            if is_short_key(key) { Some(key) } else { None }
        }
    }
}

/// The same, where five bytes and more stand after the key.
#[inline(always)]
fn roomy_key(i: &[u8]) -> Option<&[u8]>
    ensures key { IfSome result (λ key.
        judge_short_string i.now ≡ took key.now (1 + length key.now)) }
    ensures some { IfSome result (λ key. 4 ≤ length key.now) }
    ensures room { IfSome result (λ key. 6 + length key.now ≤ length i.now) }
{
    match i {
        [] => None,
        [n, rest @ ..] => {
            let n = *n as usize;
            if i.len() < n + 6 {
                return None;
            }
            let key = &rest[..n];
            if is_short_key(key) { Some(key) } else { None }
        }
    }
}

/// How many bytes stand after a tag byte, where these are a number; else 0.
#[inline(always)]
fn number_size_after(tag: u8) -> usize
    ensures size { 0 < result → number_size_after tag ≡ Some result }
    ensures few { result ≤ 8 }
{
    match tag {
        TAG_SHORT_SHORT_INT => 1,
        TAG_SHORT_SHORT_UINT => 1,
        TAG_SHORT_INT => 2,
        TAG_SHORT_UINT => 2,
        TAG_LONG_INT => 4,
        TAG_LONG_UINT => 4,
        TAG_FLOAT => 4,
        TAG_LONG_LONG_INT => 8,
        TAG_DOUBLE => 8,
        TAG_TIMESTAMP => 8,
        _ => 0,
    }
}

/// How many bytes a number at the front takes with its tag.
#[inline(always)]
fn number_size(i: &[u8], depth_left: usize) -> Option<usize>
    ensures { IfSome result (λ n. IsCanonicalFront depth_left i.now n) }
{
    match i {
        [] => None,
        [tag, rest @ ..] => {
            let n = number_size_after(*tag);
            if n == 0 {
                return None;
            }
            if rest.len() < n {
                return None;
            }
            Some(1 + n)
        }
    }
}

/// How many bytes a long string at the front takes with its tag.
#[inline(always)]
fn string_size(i: &[u8], depth_left: usize) -> Option<usize>
    ensures { IfSome result (λ n. IsCanonicalFront depth_left i.now n) }
{
    match i {
        [] => None,
        [tag, rest @ ..] => {
            if *tag != TAG_LONG_STRING {
                return None;
            }
            match parse_long_bytes(rest) {
                Ok((n, _)) => Some(1 + n),
                Err(_) => None,
            }
        }
    }
}

/// How many bytes a truth value at the front takes with its tag, where it is canonical.
#[inline(always)]
fn boolean_size(i: &[u8], depth_left: usize) -> Option<usize>
    ensures { IfSome result (λ n. IsCanonicalFront depth_left i.now n) }
{
    if i.len() < 2 {
        return None;
    }
    if i[0] != TAG_BOOLEAN || i[1] > 1 {
        return None;
    }
    Some(2)
}

/// How many bytes the value at the front takes with its tag, where it is one of those that headers mostly have, and canonical.
#[inline(always)]
fn value_size(i: &[u8], depth_left: usize) -> Option<usize>
    ensures { IfSome result (λ n. IsCanonicalFront depth_left i.now n) }
{
    match i {
        [] => None,
        [TAG_LONG_STRING, ..] => string_size(i, depth_left),
        [TAG_BOOLEAN, ..] => boolean_size(i, depth_left),
        _ => number_size(i, depth_left),
    }
}

/// The first four bytes of a key as a number.
#[inline(always)]
fn first_four(key: &[u8]) -> u32
    requires { 4 ≤ length key.now }
    ensures is { result ≡ leading 4 key.now }
    ensures few { result < 2 ^ 32 }
{
    u32::from_be_bytes([key[0], key[1], key[2], key[3]])
}

/// The number of the first four bytes of the key at the front, and how many bytes its entry takes, where the key and the
/// value are such, and canonical. Apart, since most entries are quick ones.
#[inline(never)]
fn short_entry(i: &[u8], depth_left: usize) -> Option<(u64, usize)>
    ensures { IfSome result (λ found. IsEntryFront depth_left i.now found.0 found.1) }
{
    let key = match short_key(i) {
        Some(key) => key,
        None => return None,
    };
    are_bytes(key);
    let n = 1 + key.len();
    let size = match value_size(&i[n..], depth_left) {
        Some(size) => size,
        None => return None,
    };
    Some((first_four(key) as u64, n + size))
}

/// The place after a long string of less than 256 bytes that stands at a place. Its tag and the first three bytes of its
/// length are tested at once.
#[inline(always)]
fn few_string_end(i: &[u8], at: usize, depth_left: usize) -> Option<usize>
    requires { at + 5 ≤ length i.now }
    ensures { IfSome result (λ end. IsCanonicalPart depth_left i.now at end) }
{
    if u32::from_le_bytes([i[at], i[at + 1], i[at + 2], i[at + 3]]) != TAG_LONG_STRING as u32 {
        return None;
    }
    let end = at + 5 + i[at + 4] as usize;
    if i.len() < end { None } else { Some(end) }
}

/// The place after a truth value or a number that stands at a place, where it is canonical. Five bytes are there, so that only
/// long numbers need a test.
#[inline(always)]
fn plain_end(i: &[u8], at: usize, depth_left: usize) -> Option<usize>
    requires { at + 5 ≤ length i.now }
    ensures { IfSome result (λ end. IsCanonicalPart depth_left i.now at end) }
{
    let tag = i[at];
    if tag == TAG_BOOLEAN {
        return if i[at + 1] > 1 { None } else { Some(at + 2) };
    }
    let n = number_size_after(tag);
    if n == 0 {
        return None;
    }
    if n > 4 && i.len() < at + 9 {
        return None;
    }
    Some(at + 1 + n)
}

/// The same as `short_entry` for most entries: five bytes stand after the key, so that its end needs no other test than
/// theirs.
#[inline(always)]
fn quick_entry(i: &[u8], depth_left: usize) -> Option<(u32, usize)>
    ensures { IfSome result (λ found. IsEntryFront depth_left i.now found.0 found.1) }
{
    let key = match roomy_key(i) {
        Some(key) => key,
        None => return None,
    };
    are_bytes(key);
    let at = 1 + key.len();
    if let Some(end) = few_string_end(i, at, depth_left) {
        return Some((first_four(key), end));
    }
    match plain_end(i, at, depth_left) {
        Some(end) => Some((first_four(key), end)),
        None => None,
    }
}

/// Whether what is left of a content is canonical, where the entries in front of it are, and the next key's first four bytes
/// have to make `lowest` at least. Apart, since most content has quick entries alone.
#[inline(never)]
fn ascends_on(content: &[u8], rest: &[u8], lowest: u64, depth_left: usize) -> bool
    requires { AscendingTo depth_left content.now rest.now lowest }
    ensures { IsTrue result
        → Fills AreCanonicalEntries true content.now (read_entries depth_left content.now) }
{
    are_bytes(content);
    let mut lowest = lowest;
    let mut rest = rest;
    while rest.len() > 0 {
        let (lead, used) = match short_entry(rest, depth_left) {
            Some(found) => found,
            None => return false,
        };
        if lead < lowest {
            return false;
        }
        lowest = lead + 1;
        rest = &rest[used..];
    }
    true
}

/// Whether content is canonical. True only where it is; false also where an entry is not such, where two keys begin with the
/// same four bytes, or the first one with four zeros.
#[inline(never)]
pub(crate) fn is_ascending(content: &[u8], depth_left: usize) -> bool
    ensures { IsTrue result
        → Fills AreCanonicalEntries true content.now (read_entries depth_left content.now) }
{
    let mut previous: u32 = 0;
    let mut rest = content;
    while rest.len() > 0 {
        let (lead, used) = match quick_entry(rest, depth_left) {
            Some(found) => found,
            None => return ascends_on(content, rest, previous as u64 + 1, depth_left),
        };
        // Not false at once: there is then one way out of the loop, and no answer is made in it.
        if lead <= previous {
            return ascends_on(content, rest, previous as u64 + 1, depth_left);
        }
        previous = lead;
        rest = &rest[used..];
    }
    true
}
