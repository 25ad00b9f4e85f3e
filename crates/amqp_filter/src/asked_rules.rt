//! Rules that were asked once what they decide of every frame.

ghost use Rattle.std.specs.Prelude.{◌≡◌, Ok, IsOk, Some, true};
ghost use Rattle.amqp_wire.specs.Frames.{Frame, raw_of};
ghost use Rattle.amqp_wire.specs.Outlines.{outline_of};
ghost use Rattle.amqp_wire.specs.Verdicts.{decode_raw, decode_payload};
ghost use Rattle.amqp_select.specs.Matching.{decides};

use amqp_select::Rules;
use amqp_types::ChannelId;
use amqp_wire::{AMQPFrameType, AMQPRawFrame, outline_raw};
use std::marker::Model;

/// Rules, and what they decide of every frame, where the first of them has no part.
#[derive(Drop)]
pub(crate) struct AskedRules<'a> {
    rules: &'a Rules,
    all: Option<bool>,
    keep_all: bool,
}

impl<'a> Model for AskedRules<'a> {
    ghost use Rattle.std.specs.Prelude.{◌≡◌, List, IfSome, Some, true};
    ghost use Rattle.amqp_wire.specs.declared.outline.FrameOutline.{FrameOutline};
    ghost use Rattle.amqp_select.specs.declared.rule.Rule.{Rule};
    ghost use Rattle.amqp_select.specs.Matching.{decides};

    ghost Value = { List Rule };

    ghost view = { λ asked. asked.rules.now };

    ghost invariant = { λ asked.
        ((outline : FrameOutline)
        → IfSome asked.all (λ keep. keep ≡ decides asked.rules.now outline))
        × (asked.keep_all ≡ true → asked.all ≡ Some true) };
}

/// Whether what is decided of every frame is to keep it.
fn is_keep(all: Option<bool>) -> bool
    ensures { result ≡ true → all ≡ Some true }
{
    match all {
        Some(true) => true,
        _ => false,
    }
}

/// Whether rules keep a whole frame, by its outline. It is no part of the loop's code, and its arguments take no memory there.
#[inline(never)]
fn decide_read(
    rules: &Rules,
    frame_type: AMQPFrameType,
    channel_id: ChannelId,
    payload: &[u8],
) -> bool
    requires { IsOk (decode_payload frame_type channel_id payload.now) }
    ensures { (frame : Frame) → decode_payload frame_type channel_id payload.now ≡ Ok frame
        → result ≡ decides rules.now (outline_of frame) }
{
    let raw = AMQPRawFrame {
        frame_type,
        channel_id,
        payload,
    };
    rules.decide_outline(outline_raw(raw))
}

impl<'a> AskedRules<'a> {
    ghost use Rattle.amqp_wire.specs.declared.outline.FrameOutline.{FrameOutline};

    /// The rules, asked.
    pub(crate) fn new(rules: &'a Rules) -> AskedRules<'a>
        ensures { result ≡ rules.now }
    {
        let all = rules.decide_all();
        AskedRules {
            rules,
            all,
            keep_all: is_keep(all),
        }
    }

    /// Whether every frame is kept, whatever its outline. This may return false where rules that have parts keep every frame.
    #[inline(always)]
    pub(crate) fn keep_all(&self) -> bool
        ensures { (outline : FrameOutline) → result ≡ true → decides self.now outline ≡ true }
    {
        self.keep_all
    }

    /// Whether a whole frame is kept. Its outline is read only where the rules ask for it.
    #[inline(always)]
    pub(crate) fn decide(&self, raw: AMQPRawFrame<'_>) -> bool
        requires { IsOk (decode_raw (raw_of raw)) }
        ensures { (frame : Frame) → decode_raw (raw_of raw.entry) ≡ Ok frame
            → result ≡ decides self.now (outline_of frame) }
    {
        match self.all {
            Some(keep) => keep,
            None => decide_read(self.rules, raw.frame_type, raw.channel_id, raw.payload),
        }
    }
}
