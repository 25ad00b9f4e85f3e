//! The header scan: what stands at the front of some bytes, whatever its payload is.

ghost use Rattle.std.specs.Prelude.{◌≡◌, ◌+◌, ◌++◌, ◌<◌, ◌≤◌, ℕ, List, Some, length, IfOk};
ghost use Rattle.amqp_types.specs.Judging.{took};
ghost use Rattle.amqp_wire.specs.Frames.{Raw, raw_of};
ghost use Rattle.amqp_wire.specs.Looks.{laid_out};
ghost use Rattle.amqp_wire.specs.HeaderScan.{scan};
ghost use Rattle.amqp_c.specs.Scans.{Locates, Scans, judged_status, nowhere};
ghost use Rattle.amqp_c.specs.Statuses.{cut_short};

use crate::frame_types::byte_of_type;
use amqp_fields::least_length;
use amqp_stream::StreamError;
use amqp_wire::{AMQPRawFrame, FrameLayout, Look, look_at};

/// Where the frame at the front of some bytes lies in them. Where none does, all numbers but `needed` and the status are 0. In C
/// it has 32 bytes and no padding.
#[repr(C)]
#[derive(Clone, Copy, Debug, PartialEq, Eq)]
pub struct FrontFrame {
    /// How many bytes the whole frame has.
    pub used: u64,

    /// How many bytes a frame that begins so has at least: those of the frame where it is whole, 0 at a fault.
    pub needed: u64,

    /// How many bytes the payload has.
    pub payload_len: u64,

    /// How many bytes come before its payload.
    pub payload_start: u32,

    /// The channel, 0 for a protocol header.
    pub channel: u16,

    /// The first byte: 65 protocol header, 1 method, 2 content header, 3 body, 8 heartbeat.
    pub frame_type: u8,

    /// 0 where there is a frame, 21 where the bytes end inside one, or the fault's status.
    pub status: u8,
}

/// Where the frame in front lies, with payloads of at most `max_payload` bytes, or the error of a stream that ends
/// there.
#[inline(always)]
fn scan_front(max_payload: u32, bytes: &[u8]) -> Result<FrameLayout, StreamError>
    ensures found { Scans max_payload bytes.now result }
    ensures placed { IfOk result (λ layout. layout.payload_start ≤ 7) }
{
    match look_at(Some(max_payload), bytes) {
        Look::Whole(layout) => Ok(layout),
        Look::Incomplete => Err(StreamError::CutShort),
        Look::UnknownFrameType => Err(StreamError::UnknownFrameType),
        Look::BadProtocolHeader => Err(StreamError::BadProtocolHeader),
        Look::TooLarge => Err(StreamError::TooLarge),
        Look::BadFrameEnd => Err(StreamError::BadFrameEnd),
    }
}

/// The same, for callers that need not know where a payload begins.
#[inline(always)]
pub(crate) fn scan(max_payload: u32, bytes: &[u8]) -> Result<FrameLayout, StreamError>
    ensures { Scans max_payload bytes.now result }
{
    scan_front(max_payload, bytes)
}

/// The frame that lies so at the front of some bytes.
#[inline(always)]
pub(crate) fn frame_at(bytes: &[u8], layout: FrameLayout) -> AMQPRawFrame<'_>
    requires { layout.payload_start + layout.payload_len ≤ length bytes.now }
    ensures { raw_of result ≡ laid_out layout bytes.now }
{
    AMQPRawFrame {
        frame_type: layout.frame_type,
        channel_id: layout.channel_id,
        payload: &bytes[layout.payload_start..layout.payload_start + layout.payload_len],
    }
}

/// No frame lies there, for this reason.
fn nowhere(status: u8, needed: u64) -> FrontFrame
    ensures { result ≡ nowhere status needed }
{
    FrontFrame {
        used: 0,
        needed,
        payload_len: 0,
        payload_start: 0,
        channel: 0,
        frame_type: 0,
        status,
    }
}

/// Scans the header of the frame in front, with payloads of at most `max_payload` bytes.
#[unsafe(no_mangle)]
pub extern "C" fn feksroum_next(bytes: &[u8], max_payload: u32) -> FrontFrame
    ensures status { result.status ≡ judged_status (scan (Some max_payload) bytes.now) }
    ensures frame { Locates bytes.now (scan (Some max_payload) bytes.now) result }
    ensures more { result.status ≡ cut_short → length bytes.now < result.needed }
    ensures least { (rest : List ℕ) (raw : Raw) (used : ℕ) → result.status ≡ cut_short
        → scan (Some max_payload) (bytes.now ++ rest) ≡ took raw used → result.needed ≤ used }
    ensures limited { result.needed ≤ max_payload + 8 }
{
    match scan_front(max_payload, bytes) {
        Ok(layout) => FrontFrame {
            used: layout.frame_len as u64,
            needed: layout.frame_len as u64,
            payload_len: layout.payload_len as u64,
            payload_start: layout.payload_start as u32,
            channel: layout.channel_id,
            frame_type: byte_of_type(layout.frame_type),
            status: 0,
        },
        Err(StreamError::CutShort) => nowhere(StreamError::CutShort.status(), least_length(bytes)),
        Err(error) => nowhere(error.status(), 0),
    }
}
