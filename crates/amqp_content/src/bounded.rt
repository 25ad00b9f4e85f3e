//! Messages out of the frames of many channels, with a bound on what is held of them together.

ghost use Rattle.std.specs.Prelude.{◌≡◌, ◌<◌, ◌^◌};
ghost use Rattle.amqp_content.specs.Bounds.{open_bytes};

use crate::assembler::Assembler;
use amqp_frame::AMQPFrame;
use amqp_messages::Outcome;
use amqp_types::{ChannelId, NoMemory};
use std::alloc::Global;
use std::marker::Model;

/// What becomes of a frame where what is held has a bound.
#[derive(Debug, Drop)]
pub enum Taken {
    /// The frame was taken, and this is what becomes of it.
    Pushed(Outcome),

    /// The frame would pass the bound, and comes back.
    Full(AMQPFrame),
}

/// An assembler that counts the body bytes of all messages that are not complete, so that a server can bound what its
/// peers make it hold. An opening and a content header are not counted: a channel holds at most one of each.
#[derive(Debug, Drop)]
pub struct BoundedAssembler {
    assembler: Assembler,
    held: u64,
    ghost counted: { held ≡ open_bytes assembler },
    ghost fits: { held < 2 ^ 64 },
}

impl Model for BoundedAssembler {
    ghost use Rattle.std.specs.Coded.{codes};
    ghost use Rattle.amqp_types.specs.ValueCodes.{value_code};
    ghost use Rattle.amqp_content.specs.Outcomes.{Assembling};

    ghost Value = { Assembling };

    ghost coded = { Prim.hlevel (codes, value_code) };

    ghost view = { λ bounded. bounded.assembler };
}

impl BoundedAssembler {
    ghost use Rattle.std.specs.Prelude.{◌≡◌, ◌≤◌, ◌+◌, ◌⊎◌, ℕ, [], IfOk, OnErr};
    ghost use Rattle.amqp_frame.specs.Frames.{frame_of, channel_id_of};
    ghost use Rattle.amqp_turns.specs.Stands.{kept_at, OthersStay};
    ghost use Rattle.amqp_content.specs.Outcomes.{AssemblerStands};
    ghost use Rattle.amqp_content.specs.Memory.{NeedsMemory};
    ghost use Rattle.amqp_content.specs.Bounds.{TakesWithin, body_bytes, open_bytes};

    /// An assembler of channels that have no message yet. Content headers may announce bodies of at most `max_body` bytes.
    pub fn open(alloc: Global, max_body: u64) -> BoundedAssembler
        ensures max_body { result.max_body ≡ max_body }
        ensures channels { result.channels ≡ [] }
        ensures stands { (channel : ℕ)
            → AssemblerStands max_body [] (kept_at result.channels channel) }
    {
        BoundedAssembler {
            assembler: Assembler::open(alloc, max_body),
            held: 0,
        }
    }

    /// How many body bytes the messages that are not complete hold, all together.
    pub fn held(&self) -> u64
        ensures { result ≡ open_bytes self.now }
    {
        self.held
    }

    /// Forgets what has come on a channel, its fault too: it was closed, and where it is opened again its content begins anew.
    pub fn forget(&mut self, channel_id: ChannelId)
        ensures stands { AssemblerStands self.old.max_body []
            (kept_at self.new.channels channel_id) }
        ensures others { OthersStay channel_id self.old.channels self.new.channels }
        ensures max_body { self.new.max_body ≡ self.old.max_body }
        ensures held { open_bytes self.new + body_bytes (kept_at self.old.channels channel_id)
            ≡ open_bytes self.old }
    {
        let before = self.assembler.held_of(channel_id);
        self.assembler.forget(channel_id);
        self.held -= before;
    }

    /// Takes a frame as `Assembler::push` does, but for a body with which the messages that are not complete would hold
    /// more than `bound` bytes together: it comes back, and nothing changes. A body that completes its message is taken.
    /// Memory may run out only where it may in `push`: then all channels are as before, and the frame is dropped.
    pub fn push_within(&mut self, bound: u64, frame: AMQPFrame) -> Result<Taken, NoMemory>
        ensures takes { IfOk result (TakesWithin bound self.old self.new frame) }
        ensures bounded { IfOk result
            (λ taken. (open_bytes self.new ≤ bound) ⊎ (open_bytes self.new ≤ open_bytes self.old)) }
        ensures others { OthersStay
            (channel_id_of (frame_of frame)) self.old.channels self.new.channels }
        ensures max_body { self.new.max_body ≡ self.old.max_body }
        ensures memory { OnErr result (NeedsMemory self.old (frame_of frame)) }
        ensures err { OnErr result (self.new ≡ self.old) }
    {
        let more = self.assembler.adds(&frame);
        if more > 0 && more > bound.saturating_sub(self.held) {
            return Ok(Taken::Full(frame));
        }
        let channel_id = frame.channel_id();
        let before = self.assembler.held_of(channel_id);
        let outcome = self.assembler.push(frame)?;
        self.held = self.held - before + self.assembler.held_of(channel_id);
        Ok(Taken::Pushed(outcome))
    }
}
