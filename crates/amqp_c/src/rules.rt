//! Rules by numbers: which frames are kept.

ghost use Rattle.std.specs.Prelude.{◌≡◌, find, is_some};
ghost use Rattle.std.specs.List.{filter_map, list_all};
ghost use Rattle.amqp_wire.specs.HeaderScan.{type_of};
ghost use Rattle.amqp_select.specs.Matching.{matches};
ghost use Rattle.amqp_select.specs.Refusals.{IsRuleFor, IsRuleWord};
ghost use Rattle.amqp_select.specs.declared.rule.Rule.{Rule};
ghost use Rattle.amqp_c.specs.Rules.{decided_after, decision, flag_at, kind_in, no_rule};
ghost use Rattle.amqp_c.specs.Rules.{numbers_of, outline_on, part_in, rule_in, span_in};

use crate::frame_types::{byte_of_type, type_of_byte};
use crate::statuses::BAD_ARGUMENT;
use amqp_select::{Rule, Span};
use amqp_stream::StreamError;
use amqp_types::{ChannelId, Identifier};
use amqp_wire::{AMQPFrameType, FrameOutline};

/// A rule by numbers: keeps or drops the frames for which each part that is there holds. The numbers of a part that is not there
/// are not looked at.
#[repr(C)]
#[derive(Clone, Copy, Debug, PartialEq, Eq)]
pub struct FrameRule {
    /// The first of the channels.
    pub first_channel: u16,

    /// The last of the channels.
    pub last_channel: u16,

    /// The class, which only methods and content headers have.
    pub class_id: u16,

    /// The method's id in its class, which only methods have.
    pub method_id: u16,

    /// 1 where the frames are kept, 0 where they are dropped.
    pub keep: u8,

    /// 1 where there is a part on channels, else 0.
    pub has_channels: u8,

    /// The first byte of the frames, or 0 for any.
    pub frame_type: u8,

    /// 1 where there is a part on the class, else 0.
    pub has_class: u8,

    /// 1 where there is a part on the method, else 0.
    pub has_method: u8,

    /// 0, or 41 where a word was no rule.
    pub status: u8,
}

/// No rule.
fn no_rule() -> FrameRule
    ensures { result ≡ no_rule }
{
    FrameRule {
        first_channel: 0,
        last_channel: 0,
        class_id: 0,
        method_id: 0,
        keep: 0,
        has_channels: 0,
        frame_type: 0,
        has_class: 0,
        has_method: 0,
        status: BAD_ARGUMENT,
    }
}

/// The numbers of a rule. One channel is a range of one.
fn numbers_of(rule: Rule) -> FrameRule
    ensures { result ≡ numbers_of rule }
{
    let (first_channel, last_channel) = match rule.channel {
        None => (0, 0),
        Some(Span::One(only)) => (only, only),
        Some(Span::Range(first, last)) => (first, last),
    };
    FrameRule {
        first_channel,
        last_channel,
        class_id: rule.class_id.unwrap_or(0),
        method_id: rule.method_id.unwrap_or(0),
        keep: rule.keep as u8,
        has_channels: rule.channel.is_some() as u8,
        frame_type: match rule.kind {
            None => 0,
            Some(kind) => byte_of_type(kind),
        },
        has_class: rule.class_id.is_some() as u8,
        has_method: rule.method_id.is_some() as u8,
        status: 0,
    }
}

/// What 0 and 1 say.
fn flag_at(byte: u8) -> Option<bool>
    ensures { result ≡ flag_at byte }
{
    match byte {
        0 => Some(false),
        1 => Some(true),
        _ => None,
    }
}

/// The part of a rule on an id.
fn part_in(has: u8, id: Identifier) -> Option<Option<Identifier>>
    ensures { result ≡ part_in has id }
{
    match flag_at(has) {
        None => None,
        Some(false) => Some(None),
        Some(true) => Some(Some(id)),
    }
}

/// The part of a rule on channels.
fn span_in(has: u8, first: ChannelId, last: ChannelId) -> Option<Option<Span>>
    ensures { result ≡ span_in has first last }
{
    match flag_at(has) {
        None => None,
        Some(false) => Some(None),
        Some(true) if first <= last => Some(Some(Span::Range(first, last))),
        Some(true) => None,
    }
}

/// The part of a rule on the type of frames.
fn kind_in(byte: u8) -> Option<Option<AMQPFrameType>>
    ensures { result ≡ kind_in byte }
{
    if byte == 0 {
        return Some(None);
    }
    match type_of_byte(byte) {
        None => None,
        Some(kind) => Some(Some(kind)),
    }
}

/// The rule that has these numbers.
fn rule_in(numbers: FrameRule) -> Option<Rule>
    ensures { result ≡ rule_in numbers }
{
    if numbers.status != 0 {
        return None;
    }
    let keep = flag_at(numbers.keep)?;
    let channel = span_in(
        numbers.has_channels,
        numbers.first_channel,
        numbers.last_channel,
    )?;
    let kind = kind_in(numbers.frame_type)?;
    let class_id = part_in(numbers.has_class, numbers.class_id)?;
    let method_id = part_in(numbers.has_method, numbers.method_id)?;
    Some(Rule {
        keep,
        channel,
        kind,
        class_id,
        method_id,
    })
}

/// The outline of a frame by its numbers.
fn outline_on(
    frame_type: AMQPFrameType,
    channel_id: ChannelId,
    class_id: Identifier,
    method_id: Identifier,
) -> FrameOutline
    ensures { result ≡ outline_on frame_type channel_id class_id method_id }
{
    match frame_type {
        AMQPFrameType::ProtocolHeader => FrameOutline::ProtocolHeader,
        AMQPFrameType::Method => FrameOutline::Method {
            channel_id,
            class_id,
            method_id,
        },
        AMQPFrameType::Header => FrameOutline::Header {
            channel_id,
            class_id,
            body_size: 0,
        },
        AMQPFrameType::Body => FrameOutline::Body {
            channel_id,
            length: 0,
        },
        AMQPFrameType::Heartbeat => FrameOutline::Heartbeat { channel_id },
    }
}

/// Whether each of them is a rule.
fn are_rules(rules: &[FrameRule]) -> bool
    ensures { result ≡ list_all (λ n. is_some (rule_in n)) rules.now }
{
    rules.iter().all(|numbers| rule_in(*numbers).is_some())
}

/// The first rule that matches a frame.
fn first_match(rules: &[FrameRule], outline: FrameOutline) -> Option<Rule>
    ensures { result ≡ find (λ rule. matches rule outline) (filter_map rule_in rules.now) }
{
    rules
        .iter()
        .filter_map(|numbers| rule_in(*numbers))
        .find(|rule| rule.matches(outline))
}

/// What rules decide of a frame: 1 where the first that matches says keep, 0 where it says drop or none matches; 41 where one of
/// them is none.
fn decide(rules: &[FrameRule], outline: FrameOutline) -> u8
    ensures { result ≡ decision rules.now outline }
{
    if !are_rules(rules) {
        return BAD_ARGUMENT;
    }
    match first_match(rules, outline) {
        Some(rule) => rule.keep as u8,
        None => 0,
    }
}

/// The rule that a word is, as `drop,channel=1-5,kind=body`, by its numbers; status 41 where it is none, and then all else is 0.
#[unsafe(no_mangle)]
pub extern "C" fn feksroum_rule(word: &[u8]) -> FrameRule
    ensures rule { (rule : Rule) → IsRuleFor word.now rule → result ≡ numbers_of rule }
    ensures none { ¬ IsRuleWord word.now → result ≡ no_rule }
{
    match Rule::parse(word) {
        Some(rule) => numbers_of(rule),
        None => no_rule(),
    }
}

/// Whether rules keep a frame, by its type, its channel, and the ids that it has: 1 where the first rule that matches says keep, else
/// 0; 10 where the type is none, and 41 where a rule is none.
#[unsafe(no_mangle)]
pub extern "C" fn feksroum_decide(
    rules: &[FrameRule],
    frame_type: u8,
    channel_id: ChannelId,
    class_id: Identifier,
    method_id: Identifier,
) -> u8
    ensures { result ≡ decided_after rules.now (type_of frame_type) channel_id class_id method_id }
{
    match type_of_byte(frame_type) {
        Some(kind) => decide(rules, outline_on(kind, channel_id, class_id, method_id)),
        None => StreamError::UnknownFrameType.status(),
    }
}
