//! A rule: which frames it speaks of, and whether they are kept.

ghost use Rattle.std.specs.Prelude.{◌≡◌, true, None, IfSome, IsTrue};
ghost use Rattle.amqp_select.specs.Matching.{contains, has_class, has_method, is_of_kind};
ghost use Rattle.amqp_select.specs.Covering.{ends, includes};

use crate::parsing::read_rule;
use amqp_types::{ChannelId, Identifier};
use amqp_wire::{AMQPFrameType, FrameOutline};

/// The channels that a rule speaks of.
#[derive(Clone, Copy, Debug, PartialEq, Eq)]
pub enum Span {
    /// One channel.
    One(ChannelId),

    /// The channels from the first to the last, both included.
    Range(ChannelId, ChannelId),
}

impl Span {
    /// Whether the channel is among them.
    fn contains(self, channel_id: ChannelId) -> bool
        ensures { result ≡ contains self channel_id }
    {
        match self {
            Span::One(only) => channel_id == only,
            Span::Range(first, last) => first <= channel_id && channel_id <= last,
        }
    }

    /// The first and the last of them.
    fn ends(self) -> (ChannelId, ChannelId)
        ensures { result ≡ ends self }
    {
        match self {
            Span::One(only) => (only, only),
            Span::Range(first, last) => (first, last),
        }
    }

    /// Whether all channels of the other are among them.
    fn includes(self, other: Span) -> bool
        ensures { result ≡ includes self other }
    {
        let (first, last) = self.ends();
        let (other_first, other_last) = other.ends();
        first <= other_first && other_last <= last
    }
}

/// Keeps or drops the frames for which each part that is there holds.
#[derive(Clone, Copy, Debug, PartialEq, Eq)]
pub struct Rule {
    /// Whether the frames that the rule matches are kept, or dropped.
    pub keep: bool,

    /// The channels of these frames.
    pub channel: Option<Span>,

    /// Their type.
    pub kind: Option<AMQPFrameType>,

    /// The class id, which only methods and content headers have.
    pub class_id: Option<Identifier>,

    /// The method id, which only methods have.
    pub method_id: Option<Identifier>,
}

/// Whether the frame is of this kind.
fn is_of_kind(kind: AMQPFrameType, outline: FrameOutline) -> bool
    ensures { result ≡ is_of_kind kind outline }
{
    let of_frame = match outline {
        FrameOutline::ProtocolHeader => AMQPFrameType::ProtocolHeader,
        FrameOutline::Method { .. } => AMQPFrameType::Method,
        FrameOutline::Header { .. } => AMQPFrameType::Header,
        FrameOutline::Body { .. } => AMQPFrameType::Body,
        FrameOutline::Heartbeat { .. } => AMQPFrameType::Heartbeat,
    };
    kind == of_frame
}

/// Whether the frame is a method or a content header with this class id.
fn has_class(id: Identifier, outline: FrameOutline) -> bool
    ensures { result ≡ has_class id outline }
{
    match outline {
        FrameOutline::Method { class_id, .. } => class_id == id,
        FrameOutline::Header { class_id, .. } => class_id == id,
        _ => false,
    }
}

/// Whether the frame is a method with this method id.
fn has_method(id: Identifier, outline: FrameOutline) -> bool
    ensures { result ≡ has_method id outline }
{
    match outline {
        FrameOutline::Method { method_id, .. } => method_id == id,
        _ => false,
    }
}

impl Rule {
    ghost use Rattle.amqp_select.specs.Refusals.{IsRuleFor, IsRuleWord};
    ghost use Rattle.amqp_select.specs.Matching.{is_bare, matches};
    ghost use Rattle.amqp_select.specs.Covering.{covers};
    ghost use Rattle.amqp_wire.specs.declared.outline.FrameOutline.{FrameOutline};

    /// The rule that a word is, as `drop,channel=1-5,kind=body`. No memory is taken.
    pub fn parse(word: &[u8]) -> Option<Rule>
        ensures rule { IfSome result (IsRuleFor word.now) }
        ensures none { result ≡ None → ¬ IsRuleWord word.now }
    {
        read_rule(word)
    }

    /// Whether each part holds for the frame.
    pub fn matches(&self, outline: FrameOutline) -> bool
        ensures { result ≡ matches self.now outline }
    {
        self.channel
            .is_none_or(|span| span.contains(outline.channel_id()))
            && self.kind.is_none_or(|kind| is_of_kind(kind, outline))
            && self.class_id.is_none_or(|id| has_class(id, outline))
            && self.method_id.is_none_or(|id| has_method(id, outline))
    }

    /// Whether there is no part, so that it matches every frame.
    pub fn is_bare(&self) -> bool
        ensures value { result ≡ is_bare self.now }
        ensures every { (outline : FrameOutline) → IsTrue result → matches self.now outline ≡ true }
    {
        self.channel.is_none()
            && self.kind.is_none()
            && self.class_id.is_none()
            && self.method_id.is_none()
    }

    /// Whether each part stands in the other rule too, so that all that the other matches it matches.
    pub fn covers(&self, other: &Rule) -> bool
        ensures { result ≡ covers self.now other.now }
    {
        let channel = match (self.channel, other.channel) {
            (None, _) => true,
            (Some(_), None) => false,
            (Some(span), Some(other_span)) => span.includes(other_span),
        };
        channel
            && (self.kind.is_none() || self.kind == other.kind)
            && (self.class_id.is_none() || self.class_id == other.class_id)
            && (self.method_id.is_none() || self.method_id == other.method_id)
    }
}
