//! The entries of a table one after another in ascending key order, found without memory.

ghost use Rattle.std.specs.Prelude.{◌≡◌, ◌↔◌, ℕ, option_map, IsTrue};
ghost use Rattle.amqp_canonical.specs.Marks.{AreEntries, ComesFirst};
ghost use Rattle.amqp_canonical.specs.Marks.{FindsNext, IsAfter, entries_in};

use crate::spans::{entry_size, split_key};
use std::cmp::Ordering;

/// Whether a key comes after `last`, where there is one.
fn is_after(key: &[u8], last: Option<&[u8]>) -> bool
    ensures { IsTrue result ↔ IsAfter (option_map (λ k. k.now) last.entry) key.now }
{
    match last {
        Some(last) => last.cmp(key) == Ordering::Less,
        None => true,
    }
}

/// Whether a key is not above the one found before, where there is one.
fn comes_first(key: &[u8], found: Option<(usize, &[u8])>) -> bool
    ensures { IsTrue result ↔ ComesFirst (λ k. k.now) key.now found.entry }
{
    match found {
        Some((_, first)) => key.cmp(first) != Ordering::Greater,
        None => true,
    }
}

/// The place and the key of the entry with the least key after `last`, or `None` where no key comes after it. Of
/// duplicate keys the last one wins.
pub fn next_entry<'a>(content: &'a [u8], last: Option<&[u8]>) -> Option<(usize, &'a [u8])>
    ensures { (depth_left : ℕ) → AreEntries depth_left content.now
        → FindsNext (λ k. k.now) depth_left content.now
        (option_map (λ k. k.now) last.entry) (entries_in depth_left content.now) result }
{
    let mut found: Option<(usize, &[u8])> = None;
    let mut at = 0;
    while at < content.len() {
        let entry = &content[at..];
        let (key, _) = split_key(entry);
        if is_after(key, last) && comes_first(key, found) {
            found = Some((at, key));
        }
        at += entry_size(entry);
    }
    found
}
