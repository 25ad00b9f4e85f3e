//! Content headers by their properties (AMQP 0-9-1, section 4.2.6.1).

ghost use Rattle.std.specs.Prelude.{◌≡◌, ◌↔◌, ◌≤◌, ◌<◌, ◌+◌, ◌^◌, false, length, IsTrue};
ghost use Rattle.amqp_types.specs.Flags.{flag_at};
ghost use Rattle.amqp_types.specs.Properties.{properties};
ghost use Rattle.amqp_types.specs.PropertyBytes.{mask_of};
ghost use Rattle.amqp_wire.specs.Frames.{Head};
ghost use Rattle.amqp_put.specs.MadeFrames.{MakesFrame};
ghost use Rattle.amqp_put.specs.Refusals.{refusal_of};
ghost use Rattle.amqp_put.specs.Properties.{from_bit};
ghost use Rattle.amqp_put.specs.Headers.{HasNoRareBit, HasNoUnusedBit, options_of, flaw_of};
ghost use Rattle.amqp_put.specs.Headers.{header_with, MakesHeader, TakesHeaders};

use crate::properties::{Masked, MaskedText, ToItem, ToProperties};
use crate::reserved::ReservedShort;
use crate::sizes::ToSizes;
use crate::slots::ToSlots;
use crate::strings::Text;
use amqp_canonical::has_bit;
use amqp_entries::{PutError, TableContent};
use amqp_types::{ChannelId, FRAME_HEADER, Identifier, PayloadSize, Timestamp, put_short_uint};
use amqp_wire::put_around;

/// The properties of a message, none of which is set at first (AMQP 0-9-1, section 4.2.6.1).
#[derive(Clone, Copy)]
pub struct Properties<'a> {
    /// The MIME type of the content.
    pub content_type: Option<Text<'a>>,

    /// The MIME encoding of the content.
    pub content_encoding: Option<Text<'a>>,

    /// What the application adds, by name.
    pub headers: Option<TableContent<'a>>,

    /// 1 for a message that may be lost, 2 for one that is to be kept.
    pub delivery_mode: Option<u8>,

    /// From 0 to 9, the highest.
    pub priority: Option<u8>,

    /// The request that the message replies to.
    pub correlation_id: Option<Text<'a>>,

    /// Where replies are to go.
    pub reply_to: Option<Text<'a>>,

    /// When the message may be dropped.
    pub expiration: Option<Text<'a>>,

    /// The name that the application gives the message.
    pub message_id: Option<Text<'a>>,

    /// When the message was made, in seconds since 1970 began in UTC.
    pub timestamp: Option<Timestamp>,

    /// What kind of message it is, which the standard calls its type.
    pub kind: Option<Text<'a>>,

    /// Who made the message.
    pub user_id: Option<Text<'a>>,

    /// Which application made the message.
    pub app_id: Option<Text<'a>>,

    /// Reserved by the standard.
    pub cluster_id: Option<Text<'a>>,
}

impl<'a> Default for Properties<'a> {
    /// None is set.
    fn default() -> Properties<'a>
        ensures { result ≡ record {
          content_type = None;
          content_encoding = None;
          headers = None;
          delivery_mode = None;
          priority = None;
          correlation_id = None;
          reply_to = None;
          expiration = None;
          message_id = None;
          timestamp = None;
          kind = None;
          user_id = None;
          app_id = None;
          cluster_id = None;
        } }
    {
        Properties {
            content_type: None,
            content_encoding: None,
            headers: None,
            delivery_mode: None,
            priority: None,
            correlation_id: None,
            reply_to: None,
            expiration: None,
            message_id: None,
            timestamp: None,
            kind: None,
            user_id: None,
            app_id: None,
            cluster_id: None,
        }
    }
}

/// The properties of a message, of which a mask says which are set, as C gives them: those that are not set are not looked
/// at. In C it has 192 bytes.
#[repr(C)]
#[derive(Clone, Copy)]
pub struct MaskedProperties<'a> {
    /// Bit 15 for the first property, bit 2 for the last (AMQP 0-9-1, section 4.2.6.1). Bits 1 and 0 are 0.
    pub mask: u16,

    /// 1 for a message that may be lost, 2 for one that is to be kept.
    pub delivery_mode: u8,

    /// From 0 to 9, the highest.
    pub priority: u8,

    /// Kept for later; 0.
    pub unused: u32,

    /// When the message was made, in seconds since 1970 began in UTC.
    pub timestamp: u64,

    /// The MIME type of the content.
    pub content_type: &'a [u8],

    /// The MIME encoding of the content.
    pub content_encoding: &'a [u8],

    /// What fills the table of headers, without the 4 bytes of its length.
    pub headers: &'a [u8],

    /// The request that the message replies to.
    pub correlation_id: &'a [u8],

    /// Where replies are to go.
    pub reply_to: &'a [u8],

    /// When the message may be dropped.
    pub expiration: &'a [u8],

    /// The name that the application gives the message.
    pub message_id: &'a [u8],

    /// What kind of message it is, which the standard calls its type.
    pub kind: &'a [u8],

    /// Who made the message.
    pub user_id: &'a [u8],

    /// Which application made the message.
    pub app_id: &'a [u8],

    /// Reserved by the standard.
    pub cluster_id: &'a [u8],
}

impl<'a> MaskedProperties<'a> {
    /// Whether bits 1 and 0 of the mask, which are no property's, are 0.
    #[inline(always)]
    pub fn has_no_unused_bit(&self) -> bool
        ensures { IsTrue result ↔ HasNoUnusedBit self.now.mask }
    {
        self.mask & 3 == 0
    }
}

/// Whether a payload of so many bytes may be put, and has room with the 8 bytes around it.
#[inline(always)]
fn fits(size: usize, max_payload: u32, room: usize) -> bool
    ensures { IsTrue result ↔ (size ≤ max_payload) × (size + 8 ≤ room) }
{
    size <= max_payload as usize && size + 8 <= room
}

/// Why a content header is not put. Apart, since most are.
#[inline(never)]
fn refusal<P: ToProperties>(fields: &P, max_payload: u32) -> PutError
    requires few { P.most < 2 ^ 39 }
    ensures { result ≡
        refusal_of (P.flaw fields.now) (14 + length (P.bytes fields.now)) max_payload }
{
    match fields.measure(14) {
        Ok(size) => {
            if size > max_payload as usize {
                return PutError::TooLarge;
            }
            PutError::BufferTooSmall(size + 8)
        }
        Err(error) => error,
    }
}

/// Puts the canonical bytes of the frame of a content header with this mask at the front of a slice, and returns how
/// many they are. A property that is not written is told first, in their order, then a payload of more than `max_payload`
/// bytes, and then a slice that has no room.
#[inline(always)]
fn put_header<P: ToSizes + Copy>(
    channel: ChannelId,
    class: Identifier,
    body_size: PayloadSize,
    mask: u16,
    fields: &P,
    max_payload: u32,
    out: &mut [u8],
) -> Result<usize, PutError>
    requires all { from_bit 15 P.forms ≡ properties }
    requires few { P.most < 2 ^ 39 }
    requires mask { mask ≡ mask_of properties (P.options fields.now) }
    ensures { MakesFrame out.old out.new max_payload
        (Head channel (header_with class body_size (P.options fields.now)))
        (P.flaw fields.now) result }
{
    let size = fields.size(14);
    if !fits(size, max_payload, out.len()) {
        // A copy, so that the fields themselves need no place in memory.
        let refused = *fields;
        return Err(refusal(&refused, max_payload));
    }
    let front = (class, (ReservedShort, (body_size, ())));
    let mask_place = front.put(out, 7);
    let place = put_short_uint(out, mask_place, &mask);
    let end = fields.put(out, place);
    Ok(put_around(out, 0, end, FRAME_HEADER, channel))
}

/// Puts the canonical bytes of the frame of a content header at the front of a slice, and returns how many they are. A
/// property that is not written is told first, in their order, then a payload of more than `max_payload` bytes, and then
/// a slice that has no room.
#[tactic(auto, unfolding(amqp_types::specs::Properties::properties, amqp_types::specs::Properties::later_properties))]
pub fn put_content_header(
    channel: ChannelId,
    class: Identifier,
    body_size: PayloadSize,
    properties: &Properties<'_>,
    max_payload: u32,
    out: &mut [u8],
) -> Result<usize, PutError>
    ensures { MakesFrame out.old out.new max_payload
        (Head channel (header_with class body_size (options_of properties.now)))
        (flaw_of properties.now) result }
{
    let fields = (
        properties.content_type,
        (
            properties.content_encoding,
            (
                properties.headers,
                (
                    properties.delivery_mode,
                    (
                        properties.priority,
                        (
                            properties.correlation_id,
                            (
                                properties.reply_to,
                                (
                                    properties.expiration,
                                    (
                                        properties.message_id,
                                        (
                                            properties.timestamp,
                                            (
                                                properties.kind,
                                                (
                                                    properties.user_id,
                                                    (
                                                        properties.app_id,
                                                        (properties.cluster_id, ()),
                                                    ),
                                                ),
                                            ),
                                        ),
                                    ),
                                ),
                            ),
                        ),
                    ),
                ),
            ),
        ),
    );
    let mask = fields.mask(32768) as u16;
    put_header(channel, class, body_size, mask, &fields, max_payload, out)
}

/// A text that a bit of a mask says is set or not.
#[inline(always)]
fn text<'a>(mask: u16, bit: u16, text: &'a &'a [u8]) -> MaskedText<'a>
    ensures set { result.set ≡ flag_at mask bit }
    ensures field { result.text.now.now ≡ text.entry.now.now }
{
    MaskedText {
        set: has_bit(mask, bit),
        text,
    }
}

/// The same of a text that few messages have: where it is not `RARE`, none of these is set, and no bit is tested.
#[inline(always)]
fn rare_text<'a, const RARE: bool>(mask: u16, bit: u16, text: &'a &'a [u8]) -> MaskedText<'a>
    requires { RARE ≡ false → flag_at mask bit ≡ false }
    ensures set { result.set ≡ flag_at mask bit }
    ensures field { result.text.now.now ≡ text.entry.now.now }
{
    MaskedText {
        set: RARE && has_bit(mask, bit),
        text,
    }
}

/// Whether a text is set that few messages have.
#[inline(always)]
fn has_rare(mask: u16) -> bool
    ensures { result ≡ false → HasNoRareBit mask }
{
    has_bit(mask, 14)
        || has_bit(mask, 8)
        || has_bit(mask, 5)
        || has_bit(mask, 4)
        || has_bit(mask, 3)
        || has_bit(mask, 2)
}

/// Puts the frame of a content header by a mask, in which bits of texts that few messages have are set only where they are
/// `RARE`.
#[inline(always)]
#[tactic(auto, unfolding(amqp_types::specs::Properties::properties, amqp_types::specs::Properties::later_properties))]
fn put_by_mask<'a, T: ToItem + Copy, const RARE: bool>(
    channel: ChannelId,
    class: Identifier,
    body_size: PayloadSize,
    properties: &'a MaskedProperties<'a>,
    headers: T,
    max_payload: u32,
    out: &mut [u8],
) -> Result<usize, PutError>
    requires header { TakesHeaders T.form T.most properties.now.mask }
    requires rare { RARE ≡ false → HasNoRareBit properties.now.mask }
    ensures { MakesHeader out.old out.new max_payload channel class body_size properties.now
        (T.item headers) (T.flaw headers) result }
{
    let mask = properties.mask;
    let later = (
        rare_text::<RARE>(mask, 8, &properties.expiration),
        (
            text(mask, 7, &properties.message_id),
            (
                Masked {
                    set: has_bit(mask, 6),
                    field: properties.timestamp,
                },
                (
                    rare_text::<RARE>(mask, 5, &properties.kind),
                    (
                        rare_text::<RARE>(mask, 4, &properties.user_id),
                        (
                            rare_text::<RARE>(mask, 3, &properties.app_id),
                            (rare_text::<RARE>(mask, 2, &properties.cluster_id), ()),
                        ),
                    ),
                ),
            ),
        ),
    );
    let fields = (
        text(mask, 15, &properties.content_type),
        (
            rare_text::<RARE>(mask, 14, &properties.content_encoding),
            (
                Masked {
                    set: has_bit(mask, 13),
                    field: headers,
                },
                (
                    Masked {
                        set: has_bit(mask, 12),
                        field: properties.delivery_mode,
                    },
                    (
                        Masked {
                            set: has_bit(mask, 11),
                            field: properties.priority,
                        },
                        (
                            text(mask, 10, &properties.correlation_id),
                            (text(mask, 9, &properties.reply_to), later),
                        ),
                    ),
                ),
            ),
        ),
    );
    put_header(channel, class, body_size, mask, &fields, max_payload, out)
}

/// The same with all texts. Apart, since most messages have few.
#[inline(never)]
fn put_rare<'a, T: ToItem + Copy>(
    channel: ChannelId,
    class: Identifier,
    body_size: PayloadSize,
    properties: &'a MaskedProperties<'a>,
    headers: T,
    max_payload: u32,
    out: &mut [u8],
) -> Result<usize, PutError>
    requires { TakesHeaders T.form T.most properties.now.mask }
    ensures { MakesHeader out.old out.new max_payload channel class body_size properties.now
        (T.item headers) (T.flaw headers) result }
{
    put_by_mask::<T, true>(
        channel,
        class,
        body_size,
        properties,
        headers,
        max_payload,
        out,
    )
}

/// Calls it with a copy of the headers, so that these themselves need no place in memory.
#[inline(always)]
fn call_rare<'a, T: ToItem + Copy>(
    channel: ChannelId,
    class: Identifier,
    body_size: PayloadSize,
    properties: &'a MaskedProperties<'a>,
    headers: T,
    max_payload: u32,
    out: &mut [u8],
) -> Result<usize, PutError>
    requires { TakesHeaders T.form T.most properties.now.mask }
    ensures { MakesHeader out.old out.new max_payload channel class body_size properties.now
        (T.item headers) (T.flaw headers) result }
{
    put_rare(
        channel,
        class,
        body_size,
        properties,
        headers,
        max_payload,
        out,
    )
}

/// Puts the frame of a content header as `put_content_header` does, of which a mask says which properties are set. The
/// table of headers is given by itself.
#[inline(always)]
pub fn put_masked_header<'a, T: ToItem + Copy>(
    channel: ChannelId,
    class: Identifier,
    body_size: PayloadSize,
    properties: &'a MaskedProperties<'a>,
    headers: T,
    max_payload: u32,
    out: &mut [u8],
) -> Result<usize, PutError>
    requires { TakesHeaders T.form T.most properties.now.mask }
    ensures { MakesHeader out.old out.new max_payload channel class body_size properties.now
        (T.item headers) (T.flaw headers) result }
{
    if has_rare(properties.mask) {
        return call_rare(
            channel,
            class,
            body_size,
            properties,
            headers,
            max_payload,
            out,
        );
    }
    put_by_mask::<T, false>(
        channel,
        class,
        body_size,
        properties,
        headers,
        max_payload,
        out,
    )
}
