//! Writing the canonical bytes of values, arrays and tables that were decoded, without memory.

ghost use Rattle.std.specs.Prelude.{drop, All, IsTrue};
ghost use Rattle.amqp_types.specs.ValueJudging.{filled, nested, judge_array, judge_behind};
ghost use Rattle.amqp_types.specs.ValueJudging.{judge_entry, judge_table, judge_value};
ghost use Rattle.amqp_canonical.specs.Writes.{IsRead, IsFilled, HasRoomFor, PutsIfRoom};
ghost use Rattle.amqp_canonical.specs.CanonicalValues.{canonical_after_tag, canonical_array};
ghost use Rattle.amqp_canonical.specs.CanonicalValues.{canonical_entries, canonical_entry};
ghost use Rattle.amqp_canonical.specs.CanonicalValues.{canonical_table, canonical_value};
ghost use Rattle.amqp_canonical.specs.CanonicalValues.{canonical_values, marked_entries};
ghost use Rattle.amqp_canonical.specs.Marks.{AreAscending, AreEntries, IsMarkOf, entry_at};

use crate::marks::{EntryMark, is_tied, mark_in_order};
use crate::rooms::{Room, put_if_room, truth_byte};
use crate::selection::next_entry;
use crate::spans::{bytes_from, content_of, size_in, split_key, value_size};
use crate::values::{Layout, layout_of};
use amqp_types::FieldTag;

/// Puts the canonical bytes of a value at a place of a slice, and returns the place after them. Tables and arrays may
/// nest `depth_left` deep in it. Its tag stands in front of it, in the bytes that were decoded and in those that are put.
#[cycle(write)]
pub fn put_value<R: Room>(
    buf: &mut [u8],
    at: usize,
    scratch: &mut [EntryMark],
    i: &[u8],
    depth_left: usize,
) -> usize
    requires read { IsRead (judge_value depth_left i.now) }
    requires room { HasRoomFor R.sure buf.old at (canonical_value depth_left i.now) }
    ensures { PutsIfRoom buf.old buf.new at (canonical_value depth_left i.now) result }
{
    match i {
        [] => at,
        [byte, rest @ ..] => match FieldTag::from_byte(*byte) {
            Some(tag) => {
                let place = put_if_room::<R>(buf, at, &[tag.to_byte()]);
                put_after_tag::<R>(buf, place, scratch, tag, rest, depth_left)
            }
            None => at,
        },
    }
}

/// Puts the canonical bytes of the value after a tag.
#[inline(always)]
#[cycle(write)]
fn put_after_tag<R: Room>(
    buf: &mut [u8],
    at: usize,
    scratch: &mut [EntryMark],
    tag: FieldTag,
    i: &[u8],
    depth_left: usize,
) -> usize
    requires read { IsRead (judge_behind (nested depth_left) tag i.now) }
    requires room { HasRoomFor R.sure buf.old at (canonical_after_tag depth_left tag i.now) }
    ensures { PutsIfRoom buf.old buf.new at (canonical_after_tag depth_left tag i.now) result }
{
    match layout_of(tag) {
        layout @ (Layout::Fixed(_) | Layout::Counted) => put_if_room::<R>(
            buf,
            at,
            &i[..size_in(layout, i)],
        ),
        Layout::OneBoolean => put_if_room::<R>(buf, at, &[truth_byte(i[0])]),
        Layout::Values => put_array::<R>(buf, at, scratch, i, depth_left - 1),
        Layout::Entries => put_table::<R>(buf, at, scratch, i, depth_left - 1),
    }
}

/// Puts the canonical bytes of an array at a place of a slice, and returns the place after them. Tables and arrays may
/// nest `depth_left` deep in its values.
#[cycle(write)]
pub fn put_array<R: Room>(
    buf: &mut [u8],
    at: usize,
    scratch: &mut [EntryMark],
    i: &[u8],
    depth_left: usize,
) -> usize
    requires read { IsRead (judge_array (judge_value depth_left) i.now) }
    requires room { HasRoomFor R.sure buf.old at (canonical_array depth_left i.now) }
    ensures { PutsIfRoom buf.old buf.new at (canonical_array depth_left i.now) result }
{
    let end = put_values::<R>(buf, at + 4, scratch, content_of(i), depth_left);
    put_if_room::<R>(buf, at, &((end - at - 4) as u32).to_be_bytes());
    end
}

/// Puts the canonical bytes of a table at a place of a slice, and returns the place after them. Tables and arrays may
/// nest `depth_left` deep in its values.
#[cycle(write)]
pub fn put_table<R: Room>(
    buf: &mut [u8],
    at: usize,
    scratch: &mut [EntryMark],
    i: &[u8],
    depth_left: usize,
) -> usize
    requires read { IsRead (judge_table (judge_value depth_left) i.now) }
    requires room { HasRoomFor R.sure buf.old at (canonical_table depth_left i.now) }
    ensures { PutsIfRoom buf.old buf.new at (canonical_table depth_left i.now) result }
{
    let end = put_entries::<R>(buf, at + 4, scratch, content_of(i), depth_left);
    put_if_room::<R>(buf, at, &((end - at - 4) as u32).to_be_bytes());
    end
}

/// Puts the canonical bytes of the values that fill an array, and returns the place after them. Tables and arrays may
/// nest `depth_left` deep in them.
#[cycle(write)]
pub fn put_values<R: Room>(
    buf: &mut [u8],
    at: usize,
    scratch: &mut [EntryMark],
    content: &[u8],
    depth_left: usize,
) -> usize
    requires read { IsFilled (filled (judge_value depth_left) 0 content.now) }
    requires room { HasRoomFor R.sure buf.old at (canonical_values depth_left content.now) }
    ensures { PutsIfRoom buf.old buf.new at (canonical_values depth_left content.now) result }
{
    let mut end = at;
    let mut start = 0;
    while start < content.len() {
        let item = &content[start..];
        end = put_value::<R>(buf, end, scratch, item, depth_left);
        start += value_size(item);
    }
    end
}

/// Puts the canonical bytes of the entries that fill a table, and returns the place after them: in ascending key order,
/// and of duplicate keys the last one. Tables and arrays may nest `depth_left` deep in their values.
#[cycle(write)]
pub fn put_entries<R: Room>(
    buf: &mut [u8],
    at: usize,
    scratch: &mut [EntryMark],
    content: &[u8],
    depth_left: usize,
) -> usize
    requires read { AreEntries depth_left content.now }
    requires room { HasRoomFor R.sure buf.old at (canonical_entries depth_left content.now) }
    ensures { PutsIfRoom buf.old buf.new at (canonical_entries depth_left content.now) result }
{
    match mark_in_order(scratch, content) {
        Some((count, apart)) => {
            let (marks, rest) = scratch.split_at_mut(count);
            put_marked::<R>(buf, at, rest, content, marks, apart, depth_left)
        }
        None => put_selected::<R>(buf, at, scratch, content, depth_left),
    }
}

/// Puts the canonical bytes of marked entries. Of duplicate keys, which are neighbours here, the last one wins. Most
/// tables have none, and their marks are `apart`.
#[cycle(write)]
fn put_marked<R: Room>(
    buf: &mut [u8],
    at: usize,
    scratch: &mut [EntryMark],
    content: &[u8],
    marks: &[EntryMark],
    apart: bool,
    depth_left: usize,
) -> usize
    requires read { All (λ mark. IsRead (entry_at depth_left content.now mark.place)) marks.now }
    requires each { All (IsMarkOf content.now) marks.now }
    requires apart { IsTrue apart → AreAscending content.now marks.now }
    requires room { HasRoomFor R.sure buf.old at (marked_entries depth_left content.now marks.now) }
    ensures { PutsIfRoom buf.old buf.new at
        (marked_entries depth_left content.now marks.now) result }
{
    let mut end = at;
    let mut k = 0;
    while k < marks.len() {
        if !is_tied(marks, content, k, apart) {
            end = put_mark::<R>(buf, end, scratch, content, &marks[k], depth_left);
        }
        k += 1;
    }
    end
}

/// Puts the canonical bytes of a marked entry. Most entries are canonical, and are copied in one piece.
#[inline(always)]
#[cycle(write)]
fn put_mark<R: Room>(
    buf: &mut [u8],
    at: usize,
    scratch: &mut [EntryMark],
    content: &[u8],
    mark: &EntryMark,
    depth_left: usize,
) -> usize
    requires read { IsRead (entry_at depth_left content.now mark.now.place) }
    requires is { IsMarkOf content.now mark.now }
    requires room { HasRoomFor R.sure buf.old at
        (canonical_entry depth_left (drop mark.now.place content.now)) }
    ensures { PutsIfRoom buf.old buf.new at
        (canonical_entry depth_left (drop mark.now.place content.now)) result }
{
    let place = mark.place as usize;
    let size = mark.size as usize;
    if size != 0 {
        return put_if_room::<R>(buf, at, &content[place..place + size]);
    }
    put_entry::<R>(buf, at, scratch, bytes_from(content, place), depth_left)
}

/// Puts the canonical bytes of the entries that fill a table, each found by its key. This takes quadratic time, and no
/// marks but those of tables inside.
#[cycle(write)]
fn put_selected<R: Room>(
    buf: &mut [u8],
    at: usize,
    scratch: &mut [EntryMark],
    content: &[u8],
    depth_left: usize,
) -> usize
    requires read { AreEntries depth_left content.now }
    requires room { HasRoomFor R.sure buf.old at (canonical_entries depth_left content.now) }
    ensures { PutsIfRoom buf.old buf.new at (canonical_entries depth_left content.now) result }
{
    let mut end = at;
    let mut next = next_entry(content, None);
    while let Some((place, key)) = next {
        end = put_entry::<R>(buf, end, scratch, bytes_from(content, place), depth_left);
        next = next_entry(content, Some(key));
    }
    end
}

/// Puts the canonical bytes of an entry, its key and then its value.
#[inline(always)]
#[cycle(write)]
fn put_entry<R: Room>(
    buf: &mut [u8],
    at: usize,
    scratch: &mut [EntryMark],
    i: &[u8],
    depth_left: usize,
) -> usize
    requires read { IsRead (judge_entry (judge_value depth_left) i.now) }
    requires room { HasRoomFor R.sure buf.old at (canonical_entry depth_left i.now) }
    ensures { PutsIfRoom buf.old buf.new at (canonical_entry depth_left i.now) result }
{
    let (key, value) = split_key(i);
    let place = put_if_room::<R>(buf, at, &i[..1 + key.len()]);
    put_value::<R>(buf, place, scratch, value, depth_left)
}
