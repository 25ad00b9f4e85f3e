//! Marks of the entries of a table, by which they are put in ascending key order.

ghost use Rattle.std.specs.Prelude.{◌≡◌, ◌≢◌, ◌≤◌, ◌<◌, ◌+◌, ◌↔◌, ℕ, length, map, take, drop};
ghost use Rattle.std.specs.Prelude.{slice_index_or, All, IfSome, IsTrue};
ghost use Rattle.std.specs.List.Sorted.{IsPermutation};
ghost use Rattle.amqp_canonical.specs.Leads.{key_at};
ghost use Rattle.amqp_canonical.specs.Marks.{AreAscending, AreEntries, AreInOrder, AreMarks};
ghost use Rattle.amqp_canonical.specs.Marks.{AreOfTable, AreRead, Ascends, Follows, IsMarkOf};
ghost use Rattle.amqp_canonical.specs.Marks.{blank, marked_entry, ties};

use crate::leads::first_ten;
use crate::spans::{Span, bytes_from, entry_span, split_key};
use std::cmp::Ordering;

/// What an entry of a table is sorted by, and where it stands. Calls that write n bytes need at most n / 2 of them, and
/// write a table that is not in ascending key order in quadratic time where they are given fewer. In C a mark has 16
/// bytes and is aligned to 8, and zeros are one, so a caller there can pass a slice of zeros.
#[repr(C)]
#[derive(Clone, Copy, Debug)]
pub struct EntryMark {
    /// The first eight bytes of the key as a number, with zeros after a shorter key.
    lead: u64,

    /// Where the entry begins in the content of its table.
    pub(crate) place: u32,

    /// The two bytes of the key after its first eight.
    more: u16,

    /// How many bytes the key has.
    key_size: u8,

    /// How many bytes the entry takes, where they are its canonical bytes by its tag, or by its tag and its truth value.
    /// Else 0, and where they are more than 255.
    pub(crate) size: u8,
}

/// How many bytes of a key its mark has.
const MARKED: u8 = 10;

/// So many marks take fewer instructions by falling gaps than by the sort of slices.
const FEW: usize = 300;

impl Default for EntryMark {
    /// A mark of zeros, as a scratch is filled before it is passed.
    fn default() -> EntryMark
        ensures { result ≡ blank }
    {
        EntryMark {
            lead: 0,
            place: 0,
            more: 0,
            key_size: 0,
            size: 0,
        }
    }
}

/// The bytes from a mark's place on.
pub(crate) fn marked(content: &[u8], mark: EntryMark) -> &[u8]
    ensures { result.now ≡ drop mark.place content.now }
{
    bytes_from(content, mark.place as usize)
}

/// How many bytes are copied. 0 where none are, and where they are more than a mark has room for.
#[inline(always)]
fn size_copied(span: Span) -> u8
    ensures { result ≢ 0 → IsTrue span.copied × (result ≡ span.size) }
{
    if span.copied && span.size <= u8::MAX as usize {
        span.size as u8
    } else {
        0
    }
}

/// Marks the entries that fill a table, as they stand, and returns how many there are. None where there are more than
/// marks.
fn mark_entries(marks: &mut [EntryMark], content: &[u8]) -> Option<usize>
    ensures len { length marks.new ≡ length marks.old }
    ensures within { IfSome result (λ count. count ≤ length marks.new) }
    ensures each { IfSome result (λ count. All (IsMarkOf content.now) (take count marks.new)) }
    ensures marked { IfSome result (λ count. (depth_left : ℕ)
        → AreEntries depth_left content.now
        → AreMarks depth_left content.now (take count marks.new)) }
{
    if content.len() > u32::MAX as usize {
        return None;
    }
    let mut count = 0;
    let mut at = 0;
    while at < content.len() {
        if count == marks.len() {
            return None;
        }
        let entry = &content[at..];
        let (key, _) = split_key(entry);
        let span = entry_span(entry);
        let (lead, more) = first_ten(key);
        marks[count] = EntryMark {
            lead,
            place: at as u32,
            more,
            key_size: key.len() as u8,
            size: size_copied(span),
        };
        count += 1;
        at += span.size;
    }
    Some(count)
}

/// How two marks stand by their keys, and where those are equal, by their places.
#[inline(never)]
fn order_keys(content: &[u8], a: EntryMark, b: EntryMark) -> Ordering {
    let (a_key, _) = split_key(marked(content, a));
    let (b_key, _) = split_key(marked(content, b));
    match a_key.cmp(b_key) {
        Ordering::Equal => a.place.cmp(&b.place),
        unequal => unequal,
    }
}

/// How two marks stand, by the first bytes of their keys where these differ, and by the lengths of the keys and then
/// their places where one has no other bytes.
#[inline(always)]
fn order(content: &[u8], a: &EntryMark, b: &EntryMark) -> Ordering {
    if a.lead != b.lead {
        return a.lead.cmp(&b.lead);
    }
    if a.more != b.more {
        return a.more.cmp(&b.more);
    }
    if b.key_size > MARKED && a.key_size > MARKED {
        return order_keys(content, *a, *b);
    }
    if a.key_size != b.key_size {
        return a.key_size.cmp(&b.key_size);
    }
    a.place.cmp(&b.place)
}

/// Moves a mark down by steps of `gap` while it comes before the one there.
#[inline(always)]
fn move_down(marks: &mut [EntryMark], content: &[u8], gap: usize, from: usize)
    requires { (0 < gap) × (from < length marks.old) }
    ensures { IsPermutation marks.old marks.new }
{
    let mut k = from;
    while k >= gap {
        if order(content, &marks[k], &marks[k - gap]) != Ordering::Less {
            return;
        }
        marks.swap(k, k - gap);
        k -= gap;
    }
}

/// Puts marks in order among those that stand steps of `gap` apart.
fn sort_by_gap(marks: &mut [EntryMark], content: &[u8], gap: usize)
    requires { 0 < gap }
    ensures { IsPermutation marks.old marks.new }
{
    let mut k = gap;
    while k < marks.len() {
        move_down(marks, content, gap, k);
        k += 1;
    }
}

/// Sorts marks, a few by falling gaps (Shell's method). Nothing rests on which order that is, since it is tested after.
fn sort(marks: &mut [EntryMark], content: &[u8])
    ensures { IsPermutation marks.old marks.new }
{
    if marks.len() > FEW {
        return sort_many(marks, content);
    }
    sort_by_gap(marks, content, 32);
    sort_by_gap(marks, content, 13);
    sort_by_gap(marks, content, 4);
    sort_by_gap(marks, content, 1);
}

/// Sorts any number of marks.
fn sort_many(marks: &mut [EntryMark], content: &[u8])
    ensures { IsPermutation marks.old marks.new }
{
    marks.sort_unstable_by(|a, b| order(content, a, b));
}

/// Whether the key of an entry comes after the previous one.
#[inline(never)]
fn key_ascends(content: &[u8], previous: EntryMark, mark: EntryMark) -> bool
    ensures { IsTrue result → Ascends content.now previous mark }
{
    let (previous_key, _) = split_key(marked(content, previous));
    let (key, _) = split_key(marked(content, mark));
    match previous_key.cmp(key) {
        Ordering::Less => true,
        _ => false,
    }
}

/// Whether the key of an entry comes after the previous one, by their first bytes where these differ, and by the
/// lengths of the keys where one has no other bytes.
#[inline(always)]
fn ascends(content: &[u8], previous: &EntryMark, mark: &EntryMark) -> bool
    requires { IsMarkOf content.now previous.now × IsMarkOf content.now mark.now }
    ensures { IsTrue result → Ascends content.now previous.now mark.now }
{
    if previous.lead != mark.lead {
        return previous.lead < mark.lead;
    }
    if previous.more != mark.more {
        return previous.more < mark.more;
    }
    if previous.key_size > MARKED && mark.key_size > MARKED {
        return key_ascends(content, *previous, *mark);
    }
    previous.key_size < mark.key_size
}

/// Whether two keys are the same.
#[inline(never)]
fn is_same_key(content: &[u8], mark: EntryMark, next: EntryMark) -> bool
    ensures { IsTrue result ↔ (key_at content.now mark ≡ key_at content.now next) }
{
    let (key, _) = split_key(marked(content, mark));
    let (next_key, _) = split_key(marked(content, next));
    key == next_key
}

/// Whether two entries have the same key, by its first bytes and its length, and by the other bytes where it has some.
#[inline(always)]
fn is_same(content: &[u8], mark: &EntryMark, next: &EntryMark) -> bool
    requires { IsMarkOf content.now mark.now × IsMarkOf content.now next.now }
    ensures { IsTrue result ↔ (key_at content.now mark.now ≡ key_at content.now next.now) }
{
    if mark.lead != next.lead {
        return false;
    }
    if mark.more != next.more {
        return false;
    }
    if mark.key_size != next.key_size {
        return false;
    }
    if mark.key_size <= MARKED {
        return true;
    }
    is_same_key(content, *mark, *next)
}

/// Whether an entry comes after the previous one, by their keys, and where those are equal, by their places.
#[inline(always)]
fn follows(content: &[u8], previous: &EntryMark, mark: &EntryMark) -> bool
    requires { IsMarkOf content.now previous.now × IsMarkOf content.now mark.now }
    ensures { IsTrue result → Follows content.now previous.now mark.now }
{
    if ascends(content, previous, mark) {
        return true;
    }
    if previous.place >= mark.place {
        return false;
    }
    is_same(content, previous, mark)
}

/// Whether the key of each mark comes after that of the one before it.
fn are_ascending(marks: &[EntryMark], content: &[u8]) -> bool
    requires { All (IsMarkOf content.now) marks.now }
    ensures { IsTrue result → AreAscending content.now marks.now }
{
    let mut k = 1;
    while k < marks.len() {
        if !ascends(content, &marks[k - 1], &marks[k]) {
            return false;
        }
        k += 1;
    }
    true
}

/// Whether each mark follows the one before it.
fn are_in_order(marks: &[EntryMark], content: &[u8]) -> bool
    requires { All (IsMarkOf content.now) marks.now }
    ensures { IsTrue result → AreInOrder content.now marks.now }
{
    let mut k = 1;
    while k < marks.len() {
        if !follows(content, &marks[k - 1], &marks[k]) {
            return false;
        }
        k += 1;
    }
    true
}

/// Puts marks in order, and returns whether no two have the same key. None where they are not in order.
fn put_in_order(marks: &mut [EntryMark], content: &[u8]) -> Option<bool>
    requires { All (IsMarkOf content.now) marks.old }
    ensures permuted { IsPermutation marks.old marks.new }
    ensures order { IfSome result (λ apart. AreInOrder content.now marks.new) }
    ensures apart { IfSome result (λ apart.
        IsTrue apart → AreAscending content.now marks.new) }
{
    sort(marks, content);
    if are_ascending(marks, content) {
        return Some(true);
    }
    if are_in_order(marks, content) {
        return Some(false);
    }
    None
}

/// Marks the entries that fill a table in ascending key order, and returns how many there are, and whether no two have
/// the same key. None where there are more than marks.
pub(crate) fn mark_in_order(marks: &mut [EntryMark], content: &[u8]) -> Option<(usize, bool)>
    ensures within { IfSome result (λ found. found.0 ≤ length marks.new) }
    ensures each { IfSome result (λ found. All (IsMarkOf content.now) (take found.0 marks.new)) }
    ensures apart { IfSome result (λ found.
        IsTrue found.1 → AreAscending content.now (take found.0 marks.new)) }
    ensures table { IfSome result (λ found. (depth_left : ℕ)
        → AreEntries depth_left content.now
        → AreOfTable depth_left content.now (take found.0 marks.new)) }
{
    let count = mark_entries(marks, content)?;
    let apart = put_in_order(&mut marks[..count], content)?;
    Some((count, apart))
}

/// Whether the next mark has the same key as this one. None has where no two have the same key.
#[inline(always)]
pub(crate) fn is_tied(marks: &[EntryMark], content: &[u8], k: usize, apart: bool) -> bool
    requires here { k < length marks.now }
    requires each { All (IsMarkOf content.now) marks.now }
    requires apart { IsTrue apart → AreAscending content.now marks.now }
    ensures { (depth_left : ℕ) → AreRead depth_left content.now marks.now
        → result ≡ ties (marked_entry depth_left content.now (slice_index_or marks.now k blank))
        (map (marked_entry depth_left content.now) (drop (k + 1) marks.now)) }
{
    if apart {
        return false;
    }
    if k + 1 == marks.len() {
        return false;
    }
    is_same(content, &marks[k], &marks[k + 1])
}
