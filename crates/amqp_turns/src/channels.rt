//! A value for each channel that has one, by a map with the entry used last apart.

ghost use Rattle.std.specs.Prelude.{◌≡◌, ◌≢◌, ◌==◌, ℕ, [], Some, None, OnOk, OnErr};
ghost use Rattle.std.specs.Prelude.{IsSome, IfSome, IfNone};
ghost use Rattle.std.specs.Prelude.{false, length, count_by, Bool};
ghost use Rattle.std.specs.Fn.{FnReturnsAt};
ghost use Rattle.std.specs.Option.{option_copied, option_copied_mut, option_map};
ghost use Rattle.std.specs.Borrow.{sem};
ghost use Rattle.std.specs.Ordering.{nat_cmp};
ghost use Rattle.std.specs.Map.{keys_of, values_of};
ghost use Rattle.std.specs.List.Sorted.{IsStrictlySortedBy};
ghost use Rattle.amqp_turns.specs.Stands.{kept_at, OthersStay, NoneIsBelow};
ghost use Rattle.amqp_turns.specs.LastEntry.{is_of, takes, with_last, IsApart};
ghost use Rattle.amqp_turns.specs.Lent.{lends_last, lends_value};

use amqp_types::{ChannelId, NoMemory};
use std::alloc::Global;
use std::collections::BTreeMap;
use std::marker::Model;

/// A channel with its value.
#[derive(Debug, Drop)]
struct Entry<T> {
    channel_id: ChannelId,
    value: T,
}

/// Whether the entry is of this channel.
#[inline(always)]
fn is_of<T>(last: &Option<Entry<T>>, channel_id: ChannelId) -> bool
    ensures { result ≡ is_of last.now channel_id }
{
    match last {
        Some(entry) => entry.channel_id == channel_id,
        None => false,
    }
}

/// Whether the entry of this channel lies apart, or may at once, where there is no entry.
#[inline(always)]
fn takes<T>(last: &Option<Entry<T>>, others: &BTreeMap<ChannelId, T>, channel_id: ChannelId) -> bool
    ensures { result ≡ takes last.now others.now.entries channel_id }
{
    match last {
        Some(entry) => entry.channel_id == channel_id,
        None => others.len() == 0,
    }
}

/// The value of the entry.
#[inline(always)]
fn value_of<T>(last: &Option<Entry<T>>) -> Option<&T>
    ensures { option_copied result ≡ option_map (λ entry. entry.value) last.now }
{
    match last {
        Some(entry) => Some(&entry.value),
        None => None,
    }
}

/// The value of a channel in the map, which is empty where the messages of a stream come one after another.
#[inline(always)]
fn get_from<T>(others: &BTreeMap<ChannelId, T>, channel_id: ChannelId) -> Option<&T>
    ensures { option_copied result ≡ kept_at others.now.entries channel_id }
{
    if others.len() == 0 {
        return None;
    }
    others.get(&channel_id)
}

/// The least channel in the map.
fn least_in<T>(others: &BTreeMap<ChannelId, T>) -> Option<ChannelId>
    ensures none { IfNone result (others.now.entries ≡ []) }
    ensures kept { IfSome result (λ channel. IsSome (kept_at others.now.entries channel)) }
    ensures least { IfSome result (λ channel. NoneIsBelow others.now.entries channel) }
{
    match others.first_key_value() {
        Some((channel_id, _)) => Some(*channel_id),
        None => None,
    }
}

/// The value of the entry, to be changed in its place.
#[inline(always)]
fn value_mut<T>(last: &mut Option<Entry<T>>) -> Option<&mut T>
    ensures* writes_back { sem 𝓛 (lends_last T.row last.entry result) }
    ensures value { option_copied_mut result ≡ option_map (λ entry. entry.value) last.old }
{
    match last {
        Some(entry) => Some(&mut entry.value),
        None => None,
    }
}

/// Takes the value of the entry out.
#[inline(always)]
fn take_value<T: Drop>(last: &mut Option<Entry<T>>) -> Option<T>
    ensures value { result ≡ option_map (λ entry. entry.value) last.old }
    ensures gone { last.new ≡ None }
{
    match last.take() {
        Some(entry) => Some(entry.value),
        None => None,
    }
}

/// Puts the entry that lies apart back into the map. Where memory runs out, it stays where it is.
fn put_back<T: Drop>(
    last: &mut Option<Entry<T>>,
    others: &mut BTreeMap<ChannelId, T>,
) -> Result<(), NoMemory>
    ensures last { OnOk result (last.new ≡ None) }
    ensures others { OnOk result (others.new.entries ≡ with_last last.old others.old.entries) }
    ensures last_stays { OnErr result (last.new ≡ last.old) }
    ensures others_stay { OnErr result (others.new.entries ≡ others.old.entries) }
{
    let Some(entry) = last.take() else {
        return Ok(());
    };
    match others.insert(entry.channel_id, entry.value) {
        Ok(_) => Ok(()),
        Err(refused) => {
            let (channel_id, value) = refused.value;
            *last = Some(Entry { channel_id, value });
            Err(NoMemory)
        }
    }
}

/// Gives a channel this value, whose entry does not lie apart: it is changed in the map, or, where the channel has none, lies
/// apart from now on. Memory may run out only then, and all stays.
fn insert_beside<T: Drop>(
    last: &mut Option<Entry<T>>,
    others: &mut BTreeMap<ChannelId, T>,
    channel_id: ChannelId,
    value: T,
) -> Result<(), NoMemory>
    requires other { is_of last.old channel_id ≡ false }
    ensures kept { OnOk result
        (kept_at (with_last last.new others.new.entries) channel_id ≡ Some value) }
    ensures others { OthersStay channel_id (with_last last.old others.old.entries)
        (with_last last.new others.new.entries) }
    ensures absent { OnErr result
        (kept_at (with_last last.old others.old.entries) channel_id ≡ None) }
    ensures err { OnErr result
        (with_last last.new others.new.entries ≡ with_last last.old others.old.entries) }
    ensures apart { IsApart last.old others.old.entries → IsApart last.new others.new.entries }
{
    match others.get_mut(&channel_id) {
        Some(kept) => {
            *kept = value;
            Ok(())
        }
        None => {
            put_back(last, others)?;
            *last = Some(Entry { channel_id, value });
            Ok(())
        }
    }
}

/// A value for each channel that has one. The entry of the channel that was the last to get its first value lies apart from
/// the map, so that the frames of a message that does not interleave with others look nothing up.
#[derive(Debug, Drop)]
pub struct Channels<T> {
    last: Option<Entry<T>>,
    others: BTreeMap<ChannelId, T>,
}

impl<T> Model for Channels<T> {
    ghost use Rattle.std.specs.Prelude.{ℕ, List};
    ghost use Rattle.amqp_turns.specs.LastEntry.{with_last, IsApart};

    ghost Value = { List (ℕ × T) };

    ghost view = { λ channels. with_last channels.last channels.others.entries };

    ghost invariant = { λ channels. IsApart channels.last channels.others.entries };
}

impl<T: Drop> Channels<T> {
    /// No channel has a value.
    pub fn new(alloc: Global) -> Channels<T>
        ensures { result ≡ [] }
    {
        Channels {
            last: None,
            others: BTreeMap::new(alloc),
        }
    }

    /// Whether no channel has a value.
    pub fn is_empty(&self) -> bool
        ensures { result ≡ (length self.now == 0) }
    {
        match &self.last {
            Some(_) => false,
            None => self.others.len() == 0,
        }
    }

    /// The least channel that has a value.
    pub fn least(&self) -> Option<ChannelId>
        ensures none { IfNone result (self.now ≡ []) }
        ensures kept { IfSome result (λ channel. IsSome (kept_at self.now channel)) }
        ensures least { IfSome result (λ channel. NoneIsBelow self.now channel) }
    {
        let other = least_in(&self.others);
        let Some(entry) = &self.last else {
            return other;
        };
        match other {
            Some(other) => Some(other.min(entry.channel_id)),
            None => Some(entry.channel_id),
        }
    }

    /// The number of channels whose value passes a test.
    pub fn count<F: Fn(&T) -> bool>(&self, test: F) -> usize
        requires { F.IsAlwaysCallable test }
        ensures number { (passes : T → Bool)
            → ((value : T) (answer : Bool)
            → FnReturnsAt F.Fn test value answer → answer ≡ passes value)
            → result ≡ count_by passes (values_of self.now) }
        ensures each_once { IsStrictlySortedBy nat_cmp (keys_of self.now) }
    {
        let mut count = match &self.last {
            Some(entry) => usize::from(test(&entry.value)),
            None => 0,
        };
        for value in self.others.values() {
            if test(value) {
                count += 1;
            }
        }
        count
    }

    /// The value of a channel.
    #[inline(always)]
    pub fn get(&self, channel_id: ChannelId) -> Option<&T>
        ensures { option_copied result ≡ kept_at self.now channel_id }
    {
        if is_of(&self.last, channel_id) {
            return value_of(&self.last);
        }
        get_from(&self.others, channel_id)
    }

    /// The value of a channel, to be changed in its place. This takes no memory, as `insert` may for any channel.
    #[inline(always)]
    pub fn get_mut(&mut self, channel_id: ChannelId) -> Option<&mut T>
        ensures* writes_back { sem 𝓛 (lends_value T.row self.entry channel_id result) }
        ensures value { option_copied_mut result ≡ kept_at self.old channel_id }
    {
        if is_of(&self.last, channel_id) {
            return value_mut(&mut self.last);
        }
        self.others.get_mut(&channel_id)
    }

    /// Gives a channel this value, in the place of the one that it may have. Memory may run out only where it has none, and
    /// then all stays.
    #[inline(always)]
    pub fn insert(&mut self, channel_id: ChannelId, value: T) -> Result<(), NoMemory>
        ensures kept { OnOk result (kept_at self.new channel_id ≡ Some value) }
        ensures others { OthersStay channel_id self.old self.new }
        ensures absent { OnErr result (kept_at self.old channel_id ≡ None) }
        ensures err { OnErr result (self.new ≡ self.old) }
    {
        if takes(&self.last, &self.others, channel_id) {
            self.last = Some(Entry { channel_id, value });
            return Ok(());
        }
        insert_beside(&mut self.last, &mut self.others, channel_id, value)
    }

    /// Drops the value that a channel may have, where it lies.
    #[inline(always)]
    pub fn forget(&mut self, channel_id: ChannelId)
        ensures kept { kept_at self.new channel_id ≡ None }
        ensures others { OthersStay channel_id self.old self.new }
    {
        if is_of(&self.last, channel_id) {
            self.last = None;
            return;
        }
        self.others.remove(&channel_id);
    }

    /// Takes the value of a channel out.
    #[inline(always)]
    pub fn remove(&mut self, channel_id: ChannelId) -> Option<T>
        ensures value { result ≡ kept_at self.old channel_id }
        ensures kept { kept_at self.new channel_id ≡ None }
        ensures others { OthersStay channel_id self.old self.new }
    {
        if is_of(&self.last, channel_id) {
            return take_value(&mut self.last);
        }
        self.others.remove(&channel_id)
    }
}
