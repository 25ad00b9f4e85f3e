//! The methods that open messages.

ghost use Rattle.std.specs.Prelude.{◌≡◌, IfOk, IfErr, OnOk, OnErr, IsTrue, false};
ghost use Rattle.amqp_protocol.specs.Classes.{method_of};
ghost use Rattle.amqp_messages.specs.Messages.{opening_exchange, opening_method};
ghost use Rattle.amqp_messages.specs.Messages.{opening_routing_key};
ghost use Rattle.amqp_turns.specs.Units.{is_opening_id};

use amqp_protocol::{AMQPClass, basic};
use amqp_types::NoMemory;
use std::alloc::Global;

/// The method that opens a message.
#[derive(Debug, Drop, PartialEq)]
pub enum Opening {
    /// A client publishes the message.
    Publish(basic::Publish),

    /// The server hands the message back.
    Return(basic::Return),

    /// The server sends the message to a consumer.
    Deliver(basic::Deliver),

    /// The server sends the message that was asked for.
    GetOk(basic::GetOk),
}

impl Opening {
    /// The exchange that the message is published to, or was: the empty name is that of the default exchange.
    pub fn exchange(&self) -> &str
        ensures { result.now ≡ opening_exchange self.now }
    {
        match self {
            Opening::Publish(method) => method.exchange.as_str(),
            Opening::Return(method) => method.exchange.as_str(),
            Opening::Deliver(method) => method.exchange.as_str(),
            Opening::GetOk(method) => method.exchange.as_str(),
        }
    }

    /// The routing key that the message is published with.
    pub fn routing_key(&self) -> &str
        ensures { result.now ≡ opening_routing_key self.now }
    {
        match self {
            Opening::Publish(method) => method.routing_key.as_str(),
            Opening::Return(method) => method.routing_key.as_str(),
            Opening::Deliver(method) => method.routing_key.as_str(),
            Opening::GetOk(method) => method.routing_key.as_str(),
        }
    }

    /// A deep copy.
    pub fn copy(&self, alloc: Global) -> Result<Opening, NoMemory>
        ensures { IfOk result (λ copied. copied ≡ self.now) }
    {
        match self {
            Opening::Publish(method) => Ok(Opening::Publish(method.copy(alloc)?)),
            Opening::Return(method) => Ok(Opening::Return(method.copy(alloc)?)),
            Opening::Deliver(method) => Ok(Opening::Deliver(method.copy(alloc)?)),
            Opening::GetOk(method) => Ok(Opening::GetOk(method.copy(alloc)?)),
        }
    }

    /// The opening that a method is; any other method comes back.
    pub fn from_class(class: AMQPClass) -> Result<Opening, AMQPClass>
        ensures opens { IfOk result (λ opening. opening_method opening ≡ method_of class) }
        ensures is_opening { OnOk result
            (IsTrue (is_opening_id (method_of class).class (method_of class).id)) }
        ensures back { IfErr result (λ other. other ≡ class) }
        ensures is_other { OnErr result
            (is_opening_id (method_of class).class (method_of class).id ≡ false) }
    {
        let AMQPClass::Basic(method) = class else {
            return Err(class);
        };
        match method {
            basic::AMQPMethod::Publish(method) => Ok(Opening::Publish(method)),
            basic::AMQPMethod::Return(method) => Ok(Opening::Return(method)),
            basic::AMQPMethod::Deliver(method) => Ok(Opening::Deliver(method)),
            basic::AMQPMethod::GetOk(method) => Ok(Opening::GetOk(method)),
            other => Err(AMQPClass::Basic(other)),
        }
    }

    /// The method that the opening is.
    pub fn into_class(self) -> AMQPClass
        ensures { method_of result ≡ opening_method self }
    {
        match self {
            Opening::Publish(method) => AMQPClass::Basic(basic::AMQPMethod::Publish(method)),
            Opening::Return(method) => AMQPClass::Basic(basic::AMQPMethod::Return(method)),
            Opening::Deliver(method) => AMQPClass::Basic(basic::AMQPMethod::Deliver(method)),
            Opening::GetOk(method) => AMQPClass::Basic(basic::AMQPMethod::GetOk(method)),
        }
    }
}
