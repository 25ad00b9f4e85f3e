//! Marks on frames of many channels, by numbers alone: no body is kept.

ghost use Rattle.std.specs.Prelude.{◌≡◌, ℕ, [], None, Ok, IfOk, OnOk};
ghost use Rattle.std.specs.Prelude.{OnErr, IsTrue, count_by, false};
ghost use Rattle.std.specs.Ordering.{nat_cmp};
ghost use Rattle.std.specs.Map.{keys_of, values_of};
ghost use Rattle.std.specs.List.Sorted.{IsStrictlySortedBy};
ghost use Rattle.amqp_wire.specs.Outlines.{outline_channel};
ghost use Rattle.amqp_turns.specs.Units.{is_content};
ghost use Rattle.amqp_turns.specs.Stands.{kept_at, OthersStay};
ghost use Rattle.amqp_turns.specs.Marks.{TrackerStands, TracksIn, is_begun};

use crate::channels::Channels;
use crate::mark::Mark;
use crate::progress::{Progress, begun, step};
use amqp_types::{ChannelId, NoMemory};
use amqp_wire::{FrameOutline, HasOutline};
use std::alloc::Global;
use std::marker::Model;

/// Follows the messages of many channels, and marks each frame with what it is to its message.
#[derive(Debug, Drop)]
pub struct Tracker {
    max_body: u64,
    channels: Channels<Progress>,
}

impl Model for Tracker {
    ghost use Rattle.amqp_turns.specs.Marks.{Tracked};

    ghost Value = { Tracked };

    ghost view = { λ tracker. record { max_body = tracker.max_body; channels = tracker.channels } };
}

impl Tracker {
    /// A tracker of channels that have no message yet. Content headers may announce bodies of at most
    /// `max_body` bytes.
    pub fn open(alloc: Global, max_body: u64) -> Tracker
        ensures max_body { result.max_body ≡ max_body }
        ensures channels { result.channels ≡ [] }
        ensures stands { (channel : ℕ)
            → TrackerStands max_body [] (kept_at result.channels channel) }
    {
        Tracker {
            max_body,
            channels: Channels::new(alloc),
        }
    }

    /// What is kept of a channel.
    fn progress(&self, channel_id: ChannelId) -> Option<Progress>
        ensures { result ≡ kept_at self.now.channels channel_id }
    {
        self.channels.get(channel_id).copied()
    }

    /// Keeps this of a channel. Memory may run out only where nothing is kept of it, and all stays.
    fn keep(&mut self, channel_id: ChannelId, progress: Option<Progress>) -> Result<(), NoMemory>
        ensures kept { OnOk result (kept_at self.new.channels channel_id ≡ progress) }
        ensures others { OthersStay channel_id self.old.channels self.new.channels }
        ensures max_body { self.new.max_body ≡ self.old.max_body }
        ensures absent { OnErr result (kept_at self.old.channels channel_id ≡ None) }
        ensures err { OnErr result (self.new ≡ self.old) }
    {
        match progress {
            Some(progress) => self.channels.insert(channel_id, progress),
            None => {
                self.channels.forget(channel_id);
                Ok(())
            }
        }
    }

    /// Marks a frame by its outline, and goes on to the channel's state after it. Memory may run out only where nothing
    /// is kept of the channel, and all channels are as before.
    pub fn track_outline(&mut self, outline: FrameOutline) -> Result<Mark, NoMemory>
        ensures outside { is_content outline ≡ false
            → (result ≡ Ok Mark.Passed) × (self.new ≡ self.old) }
        ensures tracks { IsTrue (is_content outline)
            → IfOk result (TracksIn self.old self.new outline) }
        ensures others { OthersStay (outline_channel outline) self.old.channels self.new.channels }
        ensures max_body { self.new.max_body ≡ self.old.max_body }
        ensures absent { OnErr result (kept_at self.old.channels (outline_channel outline) ≡ None) }
        ensures err { OnErr result (self.new ≡ self.old) }
    {
        let channel_id = outline.channel_id();
        let (mark, progress) = step(self.max_body, self.progress(channel_id), outline);
        if mark != Mark::Passed {
            self.keep(channel_id, progress)?;
        }
        Ok(mark)
    }

    /// Marks a frame, typed or borrowed, or a reference to one, and goes on to its channel's state after it. Memory may
    /// run out only where nothing is kept of its channel, and all channels are as before.
    pub fn track<F: HasOutline>(&mut self, frame: F) -> Result<Mark, NoMemory>
        requires { F.is_whole frame }
        ensures outside { is_content (F.meaning frame) ≡ false
            → (result ≡ Ok Mark.Passed) × (self.new ≡ self.old) }
        ensures tracks { IsTrue (is_content (F.meaning frame))
            → IfOk result (TracksIn self.old self.new (F.meaning frame)) }
        ensures others { OthersStay (outline_channel (F.meaning frame))
            self.old.channels self.new.channels }
        ensures max_body { self.new.max_body ≡ self.old.max_body }
        ensures absent { OnErr result
            (kept_at self.old.channels (outline_channel (F.meaning frame)) ≡ None) }
        ensures err { OnErr result (self.new ≡ self.old) }
    {
        self.track_outline(frame.to_outline())
    }

    /// Forgets what has come on a channel, its fault too: it was closed, and where it is opened again its content begins anew.
    pub fn forget(&mut self, channel_id: ChannelId)
        ensures stands { TrackerStands self.old.max_body [] (kept_at self.new.channels channel_id) }
        ensures others { OthersStay channel_id self.old.channels self.new.channels }
        ensures max_body { self.new.max_body ≡ self.old.max_body }
    {
        self.channels.forget(channel_id);
    }

    /// The number of channels on which a message has begun and is not finished. A faulted channel does
    /// not count.
    pub fn unfinished(&self) -> usize
        ensures number { result ≡ count_by is_begun (values_of self.now.channels) }
        ensures each_once { IsStrictlySortedBy nat_cmp (keys_of self.now.channels) }
    {
        self.channels.count(|progress| begun(*progress))
    }
}
