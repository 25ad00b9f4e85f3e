//! Whole messages.

ghost use Rattle.std.specs.Prelude.{◌≡◌, IfOk};

use crate::opening::Opening;
use amqp_properties::AMQPProperties;
use amqp_types::{ByteArray, ChannelId, NoMemory};
use std::alloc::Global;
use std::marker::Model;

/// A message of a channel: the method that opens it, its properties and its whole body.
#[derive(Debug, Drop, PartialEq)]
pub struct Message {
    channel: ChannelId,
    opening: Opening,
    properties: AMQPProperties,
    body: ByteArray,
}

impl Model for Message {
    ghost use Rattle.std.specs.Coded.{codes};
    ghost use Rattle.amqp_types.specs.ValueCodes.{value_code};
    ghost use Rattle.amqp_messages.specs.Messages.{Parts};

    ghost Value = { Parts };

    ghost coded = { Prim.hlevel (codes, value_code) };

    ghost view = { λ message.
        record {
          channel = message.channel;
          opening = message.opening;
          properties = message.properties;
          body = message.body;
        } };

    ghost inverse = { λ parts.
        record {
          channel = parts.channel;
          opening = parts.opening;
          properties = parts.properties;
          body = parts.body;
        } };
}

impl Message {
    /// The message of these parts.
    pub fn new(
        channel: ChannelId,
        opening: Opening,
        properties: AMQPProperties,
        body: ByteArray,
    ) -> Message
        ensures channel { result.channel ≡ channel }
        ensures opening { result.opening ≡ opening }
        ensures properties { result.properties ≡ properties }
        ensures body { result.body ≡ body }
    {
        Message {
            channel,
            opening,
            properties,
            body,
        }
    }

    /// The channel on which the message comes.
    pub fn channel(&self) -> ChannelId
        ensures { result ≡ self.now.channel }
    {
        self.channel
    }

    /// The method that opens the message.
    pub fn opening(&self) -> &Opening
        ensures { result.now ≡ self.now.opening }
    {
        &self.opening
    }

    /// What the message says of itself.
    pub fn properties(&self) -> &AMQPProperties
        ensures { result.now ≡ self.now.properties }
    {
        &self.properties
    }

    /// The bytes of the whole body.
    pub fn body(&self) -> &ByteArray
        ensures { result.now ≡ self.now.body }
    {
        &self.body
    }

    /// A deep copy.
    pub fn copy(&self, alloc: Global) -> Result<Message, NoMemory>
        ensures { IfOk result (λ copied. copied ≡ self.now) }
    {
        Ok(Message {
            channel: self.channel,
            opening: self.opening.copy(alloc)?,
            properties: self.properties.copy(alloc)?,
            body: self.body.copy(alloc)?,
        })
    }

    /// The four parts: the channel, the opening, the properties and the body.
    pub fn into_parts(self) -> (ChannelId, Opening, AMQPProperties, ByteArray)
        ensures channel { result.0 ≡ self.channel }
        ensures opening { result.1 ≡ self.opening }
        ensures properties { result.2 ≡ self.properties }
        ensures body { result.3 ≡ self.body }
    {
        (self.channel, self.opening, self.properties, self.body)
    }
}
