//! Tables at the front of a slice, and where the entries of a key stand in them.

ghost use Rattle.std.specs.Prelude.{◌≡◌, ◌≤◌, ◌↔◌, ℕ, length, option_map, IfOk, IsTrue};
ghost use Rattle.amqp_types.specs.Answers.{AnswersFully};
ghost use Rattle.amqp_types.specs.Settling.{last_at, settled};
ghost use Rattle.amqp_types.specs.ValueJudging.{judge_field_table};
ghost use Rattle.amqp_canonical.specs.Marks.{AreEntries, entries_in};
ghost use Rattle.amqp_canonical.specs.Writes.{key_in};
ghost use Rattle.amqp_lent.specs.Finding.{FindsAfter, FindsLast};
ghost use Rattle.amqp_lent.specs.Views.{entry_of, value_of};

use crate::reading::{entry_in, read_table};
use crate::value::{LentTable, LentValue};
use amqp_canonical::{bytes_from, entry_size, judge_table, next_entry, split_key};
use amqp_types::{INNER_DEPTH, ParserError};

/// Reads a table, at most 64 levels deep, and borrows it (AMQP 0-9-1, section 4.2.5.5). It is refused as
/// `parse_field_table` refuses it, and no memory is taken.
pub fn lent_table<'a>(i: &'a [u8]) -> Result<(usize, LentTable<'a>), ParserError>
    ensures judged { AnswersFully (λ table. table) result (judge_field_table i.now) }
    ensures used { IfOk result (λ found. found.0 ≤ length i.now) }
{
    let judged = judge_table(i, INNER_DEPTH)?;
    let (_, table) = read_table(i, INNER_DEPTH)?;
    Ok((judged.used, table))
}

/// Whether an entry has this key.
fn has_key(entry: &[u8], key: &[u8]) -> bool
    ensures { IsTrue result ↔ (key_in entry.now ≡ key.now) }
{
    let (entry_key, _) = split_key(entry);
    entry_key == key
}

/// The place of the last of the entries that fill a table with this key.
fn last_entry(content: &[u8], key: &[u8]) -> Option<usize>
    ensures { (depth_left : ℕ) → AreEntries depth_left content.now
        → FindsLast depth_left content.now key.now (entries_in depth_left content.now) result }
{
    let mut found = None;
    let mut at = 0;
    while at < content.len() {
        let entry = bytes_from(content, at);
        if has_key(entry, key) {
            found = Some(at);
        }
        at += entry_size(entry);
    }
    found
}

/// The value of the last of the entries that fill a table with this key.
pub(crate) fn value_of_key<'a>(
    content: &'a [u8],
    depth_left: usize,
    key: &[u8],
) -> Option<LentValue<'a>>
    requires read { AreEntries depth_left content.now }
    ensures { option_map value_of result ≡ last_at key.now (entries_in depth_left content.now) }
{
    match last_entry(content, key) {
        Some(place) => match entry_in(bytes_from(content, place), depth_left) {
            Some((_, value)) => Some(value),
            None => None,
        },
        None => None,
    }
}

/// The entry with the least key after the last one, where there is a last one, among those that fill a table.
pub(crate) fn entry_after<'a>(
    content: &'a [u8],
    depth_left: usize,
    last: Option<&[u8]>,
) -> Option<(&'a str, LentValue<'a>)>
    requires read { AreEntries depth_left content.now }
    ensures { FindsAfter (option_map (λ key. key.now) last.entry)
        (settled (entries_in depth_left content.now)) (option_map entry_of result) }
{
    match next_entry(content, last) {
        Some((place, _)) => entry_in(bytes_from(content, place), depth_left),
        None => None,
    }
}
