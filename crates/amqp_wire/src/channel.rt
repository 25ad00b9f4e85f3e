//! Channels by their numbers (AMQP 0-9-1, section 4.2.3).

ghost use Rattle.std.specs.Prelude.{◌≡◌, ℕ};
ghost use Rattle.amqp_wire.specs.Channels.{channel_of, channel_number};

use amqp_types::ChannelId;

/// The connection itself, or one of its channels.
#[derive(Clone, Copy, Debug, PartialEq, Eq)]
pub enum AMQPChannel {
    /// The connection itself, on the wire channel 0.
    Global,

    /// A channel by its number. `Id(0)` can be made, and is not `Global`.
    Id(ChannelId),
}

impl AMQPChannel {
    /// The number on the wire, 0 for the connection itself.
    pub fn get_id(self) -> ChannelId
        ensures number { result ≡ channel_number self }

        // The channel that `from` makes of an id has that id.
        ensures given { (id : ℕ) → self ≡ channel_of id → result ≡ id }
    {
        match self {
            AMQPChannel::Global => 0,
            AMQPChannel::Id(id) => id,
        }
    }
}

impl From<ChannelId> for AMQPChannel {
    ghost from_gives = { λ id channel. (channel ≡ channel_of id) × (channel_number channel ≡ id) };

    fn from(id: ChannelId) -> AMQPChannel {
        if id == 0 {
            AMQPChannel::Global
        } else {
            AMQPChannel::Id(id)
        }
    }
}
