//! What is kept of a message that is not complete.

ghost use Rattle.std.specs.Prelude.{◌≡◌, ◌++◌, IsSome, OnOk, OnErr};
ghost use Rattle.std.specs.FinMap as finite;
ghost use Rattle.amqp_recut.specs.Held.{kept_in};

use amqp_in_turn::OpenMessages;
use amqp_turns::Progress;
use amqp_types::{ChannelId, NoMemory};
use std::marker::Model;

/// A message that is not complete.
#[derive(Drop)]
pub(crate) struct Message {
    progress: Progress,
    kept: Vec<u8>,
}

impl Model for Message {
    ghost use Rattle.amqp_recut.specs.Held.{Held};

    ghost Value = { Held };

    ghost view = { λ message. record { progress = message.progress; kept = message.kept.items } };
}

impl Message {
    /// A message that has come so far, of which these bytes are kept.
    #[inline(always)]
    pub(crate) fn new(progress: Progress, kept: Vec<u8>) -> Message
        ensures { result ≡ record { progress = progress; kept = kept.items } }
    {
        Message { progress, kept }
    }

    /// How far it has come.
    #[inline(always)]
    pub(crate) fn progress(&self) -> Progress
        ensures { result ≡ self.now.progress }
    {
        self.progress
    }

    /// The last bytes of its body so far, which are too few for a piece.
    #[inline(always)]
    pub(crate) fn kept(&self) -> &[u8]
        ensures { result.now ≡ self.now.kept }
    {
        self.kept.as_slice()
    }

    /// Keeps more bytes. Where memory runs out, all stays.
    pub(crate) fn append(&mut self, progress: Progress, bytes: &[u8]) -> Result<(), NoMemory>
        ensures ok { OnOk result
            (self.new ≡ record { progress = progress; kept = self.old.kept ++ bytes.now }) }
        ensures err { OnErr result (self.new ≡ self.old) }
    {
        self.kept.extend_from_slice(bytes)?;
        self.progress = progress;
        Ok(())
    }
}

/// Keeps more bytes of the message of a channel. Where memory runs out, all stays.
pub(crate) fn append_to(
    messages: &mut OpenMessages<Message>,
    channel_id: ChannelId,
    progress: Progress,
    bytes: &[u8],
) -> Result<(), NoMemory>
    requires there { IsSome (finite.get messages.old channel_id) }
    ensures ok { OnOk result (messages.new ≡ finite.insert messages.old channel_id
        (record {
          progress = progress;
          kept = kept_in (finite.get messages.old channel_id) ++ bytes.now;
        })) }
    ensures err { OnErr result (messages.new ≡ messages.old) }
{
    let Some(message) = messages.get_mut(channel_id) else {
        unreachable!()
    };
    message.append(progress, bytes)
}
