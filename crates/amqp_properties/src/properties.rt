//! The properties of a message: fields, builders, getters and mask.

ghost use Rattle.std.specs.Prelude.{◌≡◌, IfOk};
ghost use Rattle.amqp_types.specs.Properties.{properties};
ghost use Rattle.amqp_types.specs.PropertyBytes.{mask_of};

use crate::optional::{copy_short_string, copy_table, worth};
use amqp_values::{FieldTable, NoMemory, ShortShortUInt, ShortString, ShortUInt, Timestamp};
use std::alloc::Global;

/// What a message says of itself: the properties of class basic (AMQP 0-9-1, section 4.2.6.1). Each
/// may be set or not.
#[derive(Debug, Drop, PartialEq)]
pub struct AMQPProperties {
    /// The MIME type of the content.
    pub content_type: Option<ShortString>,

    /// The MIME encoding of the content.
    pub content_encoding: Option<ShortString>,

    /// What the application adds, by name: the headers of the message.
    pub headers: Option<FieldTable>,

    /// 1 for a message that may be lost, 2 for one that is to be kept.
    pub delivery_mode: Option<ShortShortUInt>,

    /// From 0 to 9, the highest.
    pub priority: Option<ShortShortUInt>,

    /// The request that the message replies to.
    pub correlation_id: Option<ShortString>,

    /// Where replies are to go.
    pub reply_to: Option<ShortString>,

    /// When the message may be dropped.
    pub expiration: Option<ShortString>,

    /// The name that the application gives the message.
    pub message_id: Option<ShortString>,

    /// When the message was made, in seconds since 1970 began in UTC.
    pub timestamp: Option<Timestamp>,

    /// What kind of message it is, which the standard calls its type.
    pub kind: Option<ShortString>,

    /// Who made the message.
    pub user_id: Option<ShortString>,

    /// Which application made the message.
    pub app_id: Option<ShortString>,

    /// Reserved by the standard.
    pub cluster_id: Option<ShortString>,
}

impl Default for AMQPProperties {
    ghost use Rattle.std.specs.Prelude.{None};

    /// No property is set.
    fn default() -> AMQPProperties
        ensures { result ≡ record {
          content_type = None;
          content_encoding = None;
          headers = None;
          delivery_mode = None;
          priority = None;
          correlation_id = None;
          reply_to = None;
          expiration = None;
          message_id = None;
          timestamp = None;
          kind = None;
          user_id = None;
          app_id = None;
          cluster_id = None;
        } }
    {
        AMQPProperties {
            content_type: None,
            content_encoding: None,
            headers: None,
            delivery_mode: None,
            priority: None,
            correlation_id: None,
            reply_to: None,
            expiration: None,
            message_id: None,
            timestamp: None,
            kind: None,
            user_id: None,
            app_id: None,
            cluster_id: None,
        }
    }
}

impl AMQPProperties {
    ghost use Rattle.amqp_properties.specs.Options.{options};

    /// Sets the content type.
    pub fn with_content_type(self, value: ShortString) -> AMQPProperties
        ensures { result ≡ record self { content_type = Some value } }
    {
        AMQPProperties {
            content_type: Some(value),
            ..self
        }
    }

    /// Sets the content encoding.
    pub fn with_content_encoding(self, value: ShortString) -> AMQPProperties
        ensures { result ≡ record self { content_encoding = Some value } }
    {
        AMQPProperties {
            content_encoding: Some(value),
            ..self
        }
    }

    /// Sets the headers.
    pub fn with_headers(self, value: FieldTable) -> AMQPProperties
        ensures { result ≡ record self { headers = Some value } }
    {
        AMQPProperties {
            headers: Some(value),
            ..self
        }
    }

    /// Sets the delivery mode.
    pub fn with_delivery_mode(self, value: ShortShortUInt) -> AMQPProperties
        ensures { result ≡ record self { delivery_mode = Some value } }
    {
        AMQPProperties {
            delivery_mode: Some(value),
            ..self
        }
    }

    /// Sets the priority.
    pub fn with_priority(self, value: ShortShortUInt) -> AMQPProperties
        ensures { result ≡ record self { priority = Some value } }
    {
        AMQPProperties {
            priority: Some(value),
            ..self
        }
    }

    /// Sets the correlation id.
    pub fn with_correlation_id(self, value: ShortString) -> AMQPProperties
        ensures { result ≡ record self { correlation_id = Some value } }
    {
        AMQPProperties {
            correlation_id: Some(value),
            ..self
        }
    }

    /// Sets the reply-to.
    pub fn with_reply_to(self, value: ShortString) -> AMQPProperties
        ensures { result ≡ record self { reply_to = Some value } }
    {
        AMQPProperties {
            reply_to: Some(value),
            ..self
        }
    }

    /// Sets the expiration.
    pub fn with_expiration(self, value: ShortString) -> AMQPProperties
        ensures { result ≡ record self { expiration = Some value } }
    {
        AMQPProperties {
            expiration: Some(value),
            ..self
        }
    }

    /// Sets the message id.
    pub fn with_message_id(self, value: ShortString) -> AMQPProperties
        ensures { result ≡ record self { message_id = Some value } }
    {
        AMQPProperties {
            message_id: Some(value),
            ..self
        }
    }

    /// Sets the timestamp.
    pub fn with_timestamp(self, value: Timestamp) -> AMQPProperties
        ensures { result ≡ record self { timestamp = Some value } }
    {
        AMQPProperties {
            timestamp: Some(value),
            ..self
        }
    }

    /// Sets the type.
    pub fn with_type(self, value: ShortString) -> AMQPProperties
        ensures { result ≡ record self { kind = Some value } }
    {
        AMQPProperties {
            kind: Some(value),
            ..self
        }
    }

    /// Sets the user id.
    pub fn with_user_id(self, value: ShortString) -> AMQPProperties
        ensures { result ≡ record self { user_id = Some value } }
    {
        AMQPProperties {
            user_id: Some(value),
            ..self
        }
    }

    /// Sets the application id.
    pub fn with_app_id(self, value: ShortString) -> AMQPProperties
        ensures { result ≡ record self { app_id = Some value } }
    {
        AMQPProperties {
            app_id: Some(value),
            ..self
        }
    }

    /// Sets the cluster id.
    pub fn with_cluster_id(self, value: ShortString) -> AMQPProperties
        ensures { result ≡ record self { cluster_id = Some value } }
    {
        AMQPProperties {
            cluster_id: Some(value),
            ..self
        }
    }

    /// The content type, if it is set.
    pub fn content_type(&self) -> &Option<ShortString>
        ensures { result.now ≡ self.now.content_type }
    {
        &self.content_type
    }

    /// The content encoding, if it is set.
    pub fn content_encoding(&self) -> &Option<ShortString>
        ensures { result.now ≡ self.now.content_encoding }
    {
        &self.content_encoding
    }

    /// The headers, if they are set.
    pub fn headers(&self) -> &Option<FieldTable>
        ensures { result.now ≡ self.now.headers }
    {
        &self.headers
    }

    /// The delivery mode, if it is set.
    pub fn delivery_mode(&self) -> &Option<ShortShortUInt>
        ensures { result.now ≡ self.now.delivery_mode }
    {
        &self.delivery_mode
    }

    /// The priority, if it is set.
    pub fn priority(&self) -> &Option<ShortShortUInt>
        ensures { result.now ≡ self.now.priority }
    {
        &self.priority
    }

    /// The correlation id, if it is set.
    pub fn correlation_id(&self) -> &Option<ShortString>
        ensures { result.now ≡ self.now.correlation_id }
    {
        &self.correlation_id
    }

    /// The reply-to, if it is set.
    pub fn reply_to(&self) -> &Option<ShortString>
        ensures { result.now ≡ self.now.reply_to }
    {
        &self.reply_to
    }

    /// The expiration, if it is set.
    pub fn expiration(&self) -> &Option<ShortString>
        ensures { result.now ≡ self.now.expiration }
    {
        &self.expiration
    }

    /// The message id, if it is set.
    pub fn message_id(&self) -> &Option<ShortString>
        ensures { result.now ≡ self.now.message_id }
    {
        &self.message_id
    }

    /// The timestamp, if it is set.
    pub fn timestamp(&self) -> &Option<Timestamp>
        ensures { result.now ≡ self.now.timestamp }
    {
        &self.timestamp
    }

    /// The type, if it is set.
    pub fn kind(&self) -> &Option<ShortString>
        ensures { result.now ≡ self.now.kind }
    {
        &self.kind
    }

    /// The user id, if it is set.
    pub fn user_id(&self) -> &Option<ShortString>
        ensures { result.now ≡ self.now.user_id }
    {
        &self.user_id
    }

    /// The application id, if it is set.
    pub fn app_id(&self) -> &Option<ShortString>
        ensures { result.now ≡ self.now.app_id }
    {
        &self.app_id
    }

    /// The cluster id, if it is set.
    pub fn cluster_id(&self) -> &Option<ShortString>
        ensures { result.now ≡ self.now.cluster_id }
    {
        &self.cluster_id
    }

    /// The mask that says which properties are set: bit 15 for the first, bit 2 for the last (section 4.2.6.1).
    #[tactic(auto, unfolding(amqp_types::specs::PropertyBytes::mask_of, amqp_types::specs::Properties::properties, amqp_types::specs::Properties::later_properties))]
    pub fn bitmask(&self) -> ShortUInt
        ensures { result ≡ mask_of properties (options self.now) }
    {
        worth(&self.content_type, 32768)
            + worth(&self.content_encoding, 16384)
            + worth(&self.headers, 8192)
            + worth(&self.delivery_mode, 4096)
            + worth(&self.priority, 2048)
            + worth(&self.correlation_id, 1024)
            + worth(&self.reply_to, 512)
            + worth(&self.expiration, 256)
            + worth(&self.message_id, 128)
            + worth(&self.timestamp, 64)
            + worth(&self.kind, 32)
            + worth(&self.user_id, 16)
            + worth(&self.app_id, 8)
            + worth(&self.cluster_id, 4)
    }

    /// A deep copy.
    pub fn copy(&self, alloc: Global) -> Result<AMQPProperties, NoMemory>
        ensures { IfOk result (λ copied. copied ≡ self.now) }
    {
        Ok(AMQPProperties {
            content_type: copy_short_string(&self.content_type, alloc)?,
            content_encoding: copy_short_string(&self.content_encoding, alloc)?,
            headers: copy_table(&self.headers, alloc)?,
            delivery_mode: self.delivery_mode,
            priority: self.priority,
            correlation_id: copy_short_string(&self.correlation_id, alloc)?,
            reply_to: copy_short_string(&self.reply_to, alloc)?,
            expiration: copy_short_string(&self.expiration, alloc)?,
            message_id: copy_short_string(&self.message_id, alloc)?,
            timestamp: self.timestamp,
            kind: copy_short_string(&self.kind, alloc)?,
            user_id: copy_short_string(&self.user_id, alloc)?,
            app_id: copy_short_string(&self.app_id, alloc)?,
            cluster_id: copy_short_string(&self.cluster_id, alloc)?,
        })
    }
}
