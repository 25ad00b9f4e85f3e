//! Messages out of the frames of many channels.

ghost use Rattle.std.specs.Prelude.{◌≡◌, ◌<◌, ℕ, [], Ok, Some, None, IfOk};
ghost use Rattle.std.specs.Prelude.{OnOk, OnErr, IsTrue, false, length};
ghost use Rattle.amqp_protocol.specs.Classes.{method_of};
ghost use Rattle.amqp_frame.specs.Frames.{Meth, Head, Body, frame_of, header_of, channel_id_of};
ghost use Rattle.amqp_wire.specs.Outlines.{outline_of};
ghost use Rattle.amqp_turns.specs.Units.{is_content, is_opening_id};
ghost use Rattle.amqp_turns.specs.Stands.{kept_at, OthersStay};
ghost use Rattle.amqp_content.specs.Outcomes.{AssemblerStands, TakesIn, TakesMarked};
ghost use Rattle.amqp_content.specs.Outcomes.{IsHeadedThere, IsMessage, outcome_of, wrong, fault};
ghost use Rattle.amqp_content.specs.Outcomes.{pending_kept, kept_progress, with_header};
ghost use Rattle.amqp_content.specs.Outcomes.{with_bytes, whole_kept};
ghost use Rattle.amqp_content.specs.Memory.{NeedsMemory};
ghost use Rattle.amqp_content.specs.Bounds.{adds, body_bytes};
ghost use Rattle.amqp_turns.specs.Steps.{mark_after, method_mark};

use crate::pending::Pending;
use amqp_frame::{AMQPContentHeader, AMQPFrame, FrameOutline, release};
use amqp_messages::{Opening, Outcome};
use amqp_protocol::AMQPClass;
use amqp_turns::{Channels, ContentFault, Mark, Progress, step};
use amqp_types::{ByteArray, ChannelId, NoMemory};
use std::alloc::Global;
use std::marker::Model;

/// Puts the messages of many channels together. It holds what has come of the messages that are not
/// complete, and nothing of a channel on which none is.
#[derive(Debug, Drop)]
pub struct Assembler {
    alloc: Global,
    max_body: u64,
    channels: Channels<Pending>,
}

impl Model for Assembler {
    ghost use Rattle.std.specs.Prelude.{map};
    ghost use Rattle.std.specs.Coded.{codes};
    ghost use Rattle.amqp_types.specs.ValueCodes.{value_code};
    ghost use Rattle.amqp_content.specs.Outcomes.{Assembling, entry_kept};

    ghost Value = { Assembling };

    ghost coded = { Prim.hlevel (codes, value_code) };

    ghost view = { λ assembler.
        record { max_body = assembler.max_body; channels = map entry_kept assembler.channels } };
}

impl Assembler {
    /// An assembler of channels that have no message yet. Content headers may announce bodies of at
    /// most `max_body` bytes.
    pub fn open(alloc: Global, max_body: u64) -> Assembler
        ensures max_body { result.max_body ≡ max_body }
        ensures channels { result.channels ≡ [] }
        ensures stands { (channel : ℕ)
            → AssemblerStands max_body [] (kept_at result.channels channel) }
    {
        Assembler {
            alloc,
            max_body,
            channels: Channels::new(alloc),
        }
    }

    /// Forgets what has come on a channel, its fault too: it was closed, and where it is opened again its content begins anew.
    pub fn forget(&mut self, channel_id: ChannelId)
        ensures none { kept_at self.new.channels channel_id ≡ None }
        ensures stands { AssemblerStands self.old.max_body []
            (kept_at self.new.channels channel_id) }
        ensures others { OthersStay channel_id self.old.channels self.new.channels }
        ensures max_body { self.new.max_body ≡ self.old.max_body }
    {
        self.channels.forget(channel_id);
    }

    /// How far the message of a channel has come.
    fn progress(&self, channel_id: ChannelId) -> Option<Progress>
        ensures { result ≡ kept_progress (kept_at self.now.channels channel_id) }
    {
        match self.channels.get(channel_id) {
            Some(pending) => Some(pending.progress()),
            None => None,
        }
    }

    /// How many body bytes are held of a channel.
    pub(crate) fn held_of(&self, channel_id: ChannelId) -> u64
        ensures { result ≡ body_bytes (kept_at self.now.channels channel_id) }
    {
        match self.channels.get(channel_id) {
            Some(pending) => pending.held(),
            None => 0,
        }
    }

    /// How many body bytes a frame adds to what is held.
    pub(crate) fn adds(&self, frame: &AMQPFrame) -> u64
        ensures { result ≡ adds self.now (frame_of frame.now) }
    {
        let AMQPFrame::Body(channel_id, bytes) = frame else {
            return 0;
        };
        let count = bytes.len() as u64;
        let outline = FrameOutline::Body {
            channel_id: *channel_id,
            length: count,
        };
        match self.mark(*channel_id, outline) {
            Mark::Body { after, size, .. } if after != size => count,
            _ => 0,
        }
    }

    /// What a frame is to its channel's content.
    fn mark(&self, channel_id: ChannelId, outline: FrameOutline) -> Mark
        ensures { result
            ≡ mark_after self.now.max_body
            (kept_progress (kept_at self.now.channels channel_id)) outline }
    {
        step(self.max_body, self.progress(channel_id), outline).0
    }

    /// Keeps this of a channel. Memory may run out only where nothing is kept of it, and all stays.
    fn keep(&mut self, channel_id: ChannelId, pending: Pending) -> Result<(), NoMemory>
        ensures kept { OnOk result
            (kept_at self.new.channels channel_id ≡ Some (pending_kept pending)) }
        ensures others { OthersStay channel_id self.old.channels self.new.channels }
        ensures max_body { self.new.max_body ≡ self.old.max_body }
        ensures absent { OnErr result (kept_at self.old.channels channel_id ≡ None) }
        ensures err { OnErr result (self.new ≡ self.old) }
    {
        self.channels.insert(channel_id, pending)
    }

    /// Keeps a content header with the opening before it.
    fn set_header(&mut self, channel_id: ChannelId, header: AMQPContentHeader)
        ensures kept { kept_at self.new.channels channel_id
            ≡ with_header (kept_at self.old.channels channel_id) (header_of header) }
        ensures others { OthersStay channel_id self.old.channels self.new.channels }
        ensures max_body { self.new.max_body ≡ self.old.max_body }
    {
        let Some(pending) = self.channels.get_mut(channel_id) else {
            release(AMQPFrame::Header(channel_id, header));
            return;
        };
        pending.set_header(header);
    }

    /// Keeps more body bytes. Where memory runs out, all stays.
    fn append(&mut self, channel_id: ChannelId, bytes: &[u8]) -> Result<(), NoMemory>
        ensures kept { OnOk result (kept_at self.new.channels channel_id
            ≡ with_bytes (kept_at self.old.channels channel_id) bytes.now) }
        ensures others { OthersStay channel_id self.old.channels self.new.channels }
        ensures max_body { self.new.max_body ≡ self.old.max_body }
        ensures some { OnErr result (0 < length bytes.now) }
        ensures err { OnErr result (self.new ≡ self.old) }
    {
        let Some(pending) = self.channels.get_mut(channel_id) else {
            return Ok(());
        };
        pending.append(bytes)?;
        Ok(())
    }

    /// Takes a complete message out.
    fn complete(&mut self, channel_id: ChannelId) -> Outcome
        requires { IsHeadedThere (kept_at self.old.channels channel_id) }
        ensures outcome { outcome_of result
            ≡ whole_kept channel_id (kept_at self.old.channels channel_id) }
        ensures kept { kept_at self.new.channels channel_id ≡ None }
        ensures others { OthersStay channel_id self.old.channels self.new.channels }
        ensures max_body { self.new.max_body ≡ self.old.max_body }
    {
        let Some(pending) = self.channels.remove(channel_id) else {
            unreachable!()
        };
        pending.into_outcome(channel_id)
    }

    /// A frame is not in turn: nothing is kept of the channel but that.
    fn fail(&mut self, channel_id: ChannelId, bad: ContentFault) -> Result<Outcome, NoMemory>
        ensures outcome { IfOk result (λ outcome. outcome_of outcome ≡ wrong bad) }
        ensures kept { OnOk result (kept_at self.new.channels channel_id ≡ Some fault) }
        ensures others { OthersStay channel_id self.old.channels self.new.channels }
        ensures max_body { self.new.max_body ≡ self.old.max_body }
        ensures absent { OnErr result (kept_at self.old.channels channel_id ≡ None) }
        ensures err { OnErr result (self.new ≡ self.old) }
    {
        self.keep(channel_id, Pending::Faulted)?;
        Ok(Outcome::Fault(bad))
    }

    /// Takes a method between messages: an opening is kept, any other comes back.
    fn take_method(&mut self, channel_id: ChannelId, class: AMQPClass) -> Result<Outcome, NoMemory>
        ensures takes { IfOk result
            (λ outcome. TakesIn self.old self.new (Meth channel_id (method_of class))
            (method_mark (method_of class).class (method_of class).id) (outcome_of outcome)) }
        ensures others { OthersStay channel_id self.old.channels self.new.channels }
        ensures max_body { self.new.max_body ≡ self.old.max_body }
        ensures opens { OnErr result
            (IsTrue (is_opening_id (method_of class).class (method_of class).id)) }
        ensures absent { OnErr result (kept_at self.old.channels channel_id ≡ None) }
        ensures err { OnErr result (self.new ≡ self.old) }
    {
        match Opening::from_class(class) {
            Ok(opening) => {
                let body = Vec::new(self.alloc);
                let pending = Pending::Message {
                    opening,
                    header: None,
                    body,
                };
                self.keep(channel_id, pending)?;
                Ok(Outcome::Held)
            }
            Err(class) => Ok(Outcome::Passed(AMQPFrame::Method(channel_id, class))),
        }
    }

    /// Takes a content header after an opening.
    fn take_header(&mut self, channel_id: ChannelId, header: AMQPContentHeader) -> Outcome
        requires { IsMessage (kept_at self.old.channels channel_id) }
        ensures takes { TakesIn self.old self.new
            (Head channel_id (header_of header)) Mark.Header (outcome_of result) }
        ensures others { OthersStay channel_id self.old.channels self.new.channels }
        ensures max_body { self.new.max_body ≡ self.old.max_body }
    {
        let size = header.body_size;
        self.set_header(channel_id, header);
        if size == 0 {
            self.complete(channel_id)
        } else {
            Outcome::Held
        }
    }

    /// Takes a piece of a message's body, with the mark that it has.
    fn take_body(
        &mut self,
        channel_id: ChannelId,
        bytes: ByteArray,
        before: u64,
        after: u64,
        size: u64,
    ) -> Result<Outcome, NoMemory>
        requires { IsHeadedThere (kept_at self.old.channels channel_id) }
        ensures takes { IfOk result (λ outcome.
            TakesIn self.old self.new (Body channel_id bytes)
            (Mark.Body before after size) (outcome_of outcome)) }
        ensures others { OthersStay channel_id self.old.channels self.new.channels }
        ensures max_body { self.new.max_body ≡ self.old.max_body }
        ensures some { OnErr result (0 < length bytes) }
        ensures err { OnErr result (self.new ≡ self.old) }
    {
        self.append(channel_id, bytes.as_slice())?;
        if after == size {
            Ok(self.complete(channel_id))
        } else {
            Ok(Outcome::Held)
        }
    }

    /// Takes a method.
    fn push_method(&mut self, channel_id: ChannelId, class: AMQPClass) -> Result<Outcome, NoMemory>
        ensures takes { IfOk result (λ outcome.
            TakesMarked self.old self.new
            (Meth channel_id (method_of class)) (outcome_of outcome)) }
        ensures others { OthersStay channel_id self.old.channels self.new.channels }
        ensures max_body { self.new.max_body ≡ self.old.max_body }
        ensures memory { OnErr result (NeedsMemory self.old (Meth channel_id (method_of class))) }
        ensures err { OnErr result (self.new ≡ self.old) }
    {
        let outline = FrameOutline::Method {
            channel_id,
            class_id: class.get_amqp_class_id(),
            method_id: class.get_amqp_method_id(),
        };
        match self.mark(channel_id, outline) {
            Mark::Fault(bad) => {
                release(AMQPFrame::Method(channel_id, class));
                self.fail(channel_id, bad)
            }
            _ => self.take_method(channel_id, class),
        }
    }

    /// Takes a content header.
    fn push_header(
        &mut self,
        channel_id: ChannelId,
        header: AMQPContentHeader,
    ) -> Result<Outcome, NoMemory>
        ensures takes { IfOk result (λ outcome.
            TakesMarked self.old self.new
            (Head channel_id (header_of header)) (outcome_of outcome)) }
        ensures others { OthersStay channel_id self.old.channels self.new.channels }
        ensures max_body { self.new.max_body ≡ self.old.max_body }
        ensures memory { OnErr result (NeedsMemory self.old (Head channel_id (header_of header))) }
        ensures err { OnErr result (self.new ≡ self.old) }
    {
        let outline = FrameOutline::Header {
            channel_id,
            class_id: header.class_id,
            body_size: header.body_size,
        };
        match self.mark(channel_id, outline) {
            Mark::Fault(bad) => {
                release(AMQPFrame::Header(channel_id, header));
                self.fail(channel_id, bad)
            }
            _ => Ok(self.take_header(channel_id, header)),
        }
    }

    /// Takes a body.
    fn push_body(&mut self, channel_id: ChannelId, bytes: ByteArray) -> Result<Outcome, NoMemory>
        ensures takes { IfOk result (λ outcome.
            TakesMarked self.old self.new (Body channel_id bytes) (outcome_of outcome)) }
        ensures others { OthersStay channel_id self.old.channels self.new.channels }
        ensures max_body { self.new.max_body ≡ self.old.max_body }
        ensures memory { OnErr result (NeedsMemory self.old (Body channel_id bytes)) }
        ensures err { OnErr result (self.new ≡ self.old) }
    {
        let outline = FrameOutline::Body {
            channel_id,
            length: bytes.len() as u64,
        };
        match self.mark(channel_id, outline) {
            Mark::Fault(bad) => self.fail(channel_id, bad),
            Mark::Body {
                before,
                after,
                size,
            } => self.take_body(channel_id, bytes, before, after, size),
            _ => unreachable!(),
        }
    }

    /// Takes a frame, and says what becomes of it as the last of its channel's frames so far: it is passed on, held, or
    /// completes a message, or it is dropped for a fault. Memory may run out only at the first that is kept of a channel,
    /// and at body bytes: then all channels are as before, and the frame is dropped.
    pub fn push(&mut self, frame: AMQPFrame) -> Result<Outcome, NoMemory>
        ensures outside { is_content (outline_of (frame_of frame)) ≡ false
            → (result ≡ Ok (Outcome.Passed frame)) × (self.new ≡ self.old) }
        ensures takes { IfOk result
            (λ outcome. TakesMarked self.old self.new (frame_of frame) (outcome_of outcome)) }
        ensures others { OthersStay
            (channel_id_of (frame_of frame)) self.old.channels self.new.channels }
        ensures max_body { self.new.max_body ≡ self.old.max_body }
        ensures memory { OnErr result (NeedsMemory self.old (frame_of frame)) }
        ensures err { OnErr result (self.new ≡ self.old) }
    {
        match frame {
            AMQPFrame::Method(channel_id, class) => self.push_method(channel_id, class),
            AMQPFrame::Header(channel_id, header) => self.push_header(channel_id, header),
            AMQPFrame::Body(channel_id, bytes) => self.push_body(channel_id, bytes),
            AMQPFrame::ProtocolHeader(version) => {
                Ok(Outcome::Passed(AMQPFrame::ProtocolHeader(version)))
            }
            AMQPFrame::Heartbeat => Ok(Outcome::Passed(AMQPFrame::Heartbeat)),
            AMQPFrame::InvalidHeartbeat(channel_id) => {
                Ok(Outcome::Passed(AMQPFrame::InvalidHeartbeat(channel_id)))
            }
        }
    }
}
