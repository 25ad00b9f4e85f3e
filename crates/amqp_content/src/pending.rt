//! What an assembler keeps of a channel.

ghost use Rattle.std.specs.Prelude.{◌≡◌, ◌<◌, Some, OnOk, OnErr, length};
ghost use Rattle.amqp_frame.specs.Frames.{header_of};
ghost use Rattle.amqp_content.specs.Outcomes.{pending_kept, progress_kept, with_header, with_bytes};
ghost use Rattle.amqp_content.specs.Outcomes.{IsHeaded, outcome_of, whole_kept};
ghost use Rattle.amqp_content.specs.Bounds.{body_bytes};

use amqp_frame::AMQPContentHeader;
use amqp_messages::{Message, Opening, Outcome};
use amqp_turns::Progress;
use amqp_types::{ByteArray, ChannelId, NoMemory};

/// What is kept of a channel on which a message has begun, or a fault has come.
#[derive(Debug, Drop)]
pub(crate) enum Pending {
    /// A message: its opening, its content header once it has come, and the body bytes so far.
    Message {
        opening: Opening,
        header: Option<AMQPContentHeader>,
        body: Vec<u8>,
    },

    /// A frame was not in turn.
    Faulted,
}

impl Pending {
    /// How far the message has come.
    pub(crate) fn progress(&self) -> Progress
        ensures { result ≡ progress_kept (pending_kept self.now) }
    {
        match self {
            Pending::Message { header, body, .. } => match header {
                Some(header) => Progress::Headed {
                    size: header.body_size,
                    seen: body.len() as u64,
                },
                None => Progress::Opened,
            },
            Pending::Faulted => Progress::Faulted,
        }
    }

    /// How many body bytes are kept.
    pub(crate) fn held(&self) -> u64
        ensures { result ≡ body_bytes (Some (pending_kept self.now)) }
    {
        match self {
            Pending::Message { body, .. } => body.len() as u64,
            Pending::Faulted => 0,
        }
    }

    /// Keeps the content header of a message.
    pub(crate) fn set_header(&mut self, content_header: AMQPContentHeader)
        ensures { Some (pending_kept self.new)
            ≡ with_header (Some (pending_kept self.old)) (header_of content_header) }
    {
        match self {
            Pending::Message { header, .. } => *header = Some(content_header),
            Pending::Faulted => {}
        }
    }

    /// Keeps more body bytes of a message. Where there are none, this takes no memory.
    pub(crate) fn append(&mut self, bytes: &[u8]) -> Result<(), NoMemory>
        ensures ok { OnOk result
            (Some (pending_kept self.new) ≡ with_bytes (Some (pending_kept self.old)) bytes.now) }
        ensures some { OnErr result (0 < length bytes.now) }
        ensures err { OnErr result (pending_kept self.new ≡ pending_kept self.old) }
    {
        match self {
            Pending::Message { body, .. } => {
                body.extend_from_slice(bytes)?;
                Ok(())
            }
            Pending::Faulted => Ok(()),
        }
    }

    /// The message, once all its body bytes have come.
    pub(crate) fn into_outcome(self, channel_id: ChannelId) -> Outcome
        requires { IsHeaded (pending_kept self) }
        ensures { outcome_of result ≡ whole_kept channel_id (Some (pending_kept self)) }
    {
        match self {
            Pending::Message {
                opening,
                header,
                body,
            } => match header {
                Some(header) => Outcome::Done(Message::new(
                    channel_id,
                    opening,
                    header.properties,
                    ByteArray::from_vec(body),
                )),
                None => unreachable!(),
            },
            Pending::Faulted => unreachable!(),
        }
    }
}
