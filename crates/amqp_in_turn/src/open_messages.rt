//! What is kept of the channels on which a message has begun.

ghost use Rattle.std.specs.Prelude.{◌≡◌, ◌==◌, None, IsSome, OnOk, OnErr};
ghost use Rattle.std.specs.Option.{option_copied, option_copied_mut};
ghost use Rattle.std.specs.Borrow.{sem};
ghost use Rattle.std.specs.FinMap as finite;
ghost use Rattle.amqp_turns.specs.ByChannel.{set_at};
ghost use Rattle.amqp_stream.specs.Streaming.{end_result};
ghost use Rattle.amqp_in_turn.specs.Ending.{least_channel, refused_at_end};
ghost use Rattle.amqp_in_turn.specs.Lent.{lends_held};

use crate::errors::Refusal;
use amqp_turns::Channels;
use amqp_types::{ChannelId, NoMemory};
use std::alloc::Global;
use std::marker::Model;

/// What is kept of each message that is not complete, by its channel, and whether there is none.
#[derive(Drop)]
pub struct OpenMessages<T> {
    channels: Channels<T>,
    empty: bool,
}

impl<T> Model for OpenMessages<T> {
    ghost use Rattle.std.specs.Prelude.{◌≡◌, ◌==◌, length};
    ghost use Rattle.std.specs.Coded.{coded_ℕ};
    ghost use Rattle.std.specs.FinMap as finite;
    ghost use Rattle.amqp_turns.specs.ByChannel.{ByChannel};

    ghost Value = { ByChannel T };

    ghost coded = { finite.code coded_ℕ T.code };

    ghost view = { λ messages. finite.from_entries messages.channels };

    ghost invariant = { λ messages. messages.empty ≡ (length messages.channels == 0) };
}

impl<T: Drop> OpenMessages<T> {
    /// No message has begun.
    pub fn new(alloc: Global) -> OpenMessages<T>
        ensures { result ≡ finite.empty }
    {
        OpenMessages {
            channels: Channels::new(alloc),
            empty: true,
        }
    }

    /// Whether no message has begun.
    pub fn is_empty(&self) -> bool
        ensures { result ≡ (finite.len self.now == 0) }
    {
        self.empty
    }

    /// The end of input, where no message may be open.
    pub fn finish(&self) -> Result<(), Refusal>
        ensures { result ≡ end_result (refused_at_end (least_channel self.now)) }
    {
        match self.channels.least() {
            None => Ok(()),
            Some(channel_id) => Err(Refusal::OpenContent(channel_id)),
        }
    }

    /// What is kept of a channel.
    #[inline(always)]
    pub fn get(&self, channel_id: ChannelId) -> Option<&T>
        ensures { option_copied result ≡ finite.get self.now channel_id }
    {
        self.channels.get(channel_id)
    }

    /// The same, to be changed in its place.
    #[inline(always)]
    pub fn get_mut(&mut self, channel_id: ChannelId) -> Option<&mut T>
        ensures* writes_back { sem 𝓛 (lends_held T.row self.entry channel_id result) }
        ensures value { option_copied_mut result ≡ finite.get self.old channel_id }
    {
        self.channels.get_mut(channel_id)
    }

    /// Keeps this in the place of what is kept of a channel. Memory may run out only where nothing is, and then all stays.
    #[inline(always)]
    pub fn begin(&mut self, channel_id: ChannelId, message: T) -> Result<(), NoMemory>
        ensures ok { OnOk result (self.new ≡ finite.insert self.old channel_id message) }
        ensures err { OnErr result (self.new ≡ self.old) }
        ensures absent { OnErr result (finite.get self.old channel_id ≡ None) }
    {
        let begun = self.channels.insert(channel_id, message);
        self.empty = self.channels.is_empty();
        begun
    }

    /// Keeps this in the place of what is kept of a channel, or nothing, where its message is complete. This takes no memory.
    #[inline(always)]
    pub fn replace(&mut self, channel_id: ChannelId, message: Option<T>)
        requires there { IsSome (finite.get self.old channel_id) }
        ensures { self.new ≡ set_at self.old channel_id message }
    {
        match message {
            Some(message) => match self.begin(channel_id, message) {
                Ok(()) => {}
                Err(_) => unreachable!(),
            },
            None => self.forget(channel_id),
        }
    }

    /// Keeps nothing of a channel.
    #[inline(always)]
    pub fn forget(&mut self, channel_id: ChannelId)
        ensures { self.new ≡ finite.remove self.old channel_id }
    {
        self.channels.forget(channel_id);
        self.empty = self.channels.is_empty();
    }
}
