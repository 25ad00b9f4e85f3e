//! Frames that are no methods: content headers, bodies, heartbeats and protocol headers.

ghost use Rattle.std.specs.Prelude.{◌≡◌, None, false};
ghost use Rattle.amqp_types.specs.Flags.{flag_at};
ghost use Rattle.amqp_wire.specs.Frames.{Beat, Body, Proto};
ghost use Rattle.amqp_put.specs.Headers.{HasNoUnusedBit, MakesHeader};
ghost use Rattle.amqp_put.specs.MadeFrames.{MakesEight, MakesFrame};
ghost use Rattle.amqp_c_put.specs.Headers.{headers_flaw, headers_item};
ghost use Rattle.amqp_c_put.specs.Reports.{Reports, refused};

use crate::no_headers::NoHeaders;
use crate::report::{PutReport, refused, report};
use amqp_canonical::has_bit;
use amqp_put::{
    MaskedProperties, TableContent, put_body_frame, put_heartbeat, put_masked_header,
    put_protocol_header,
};
use amqp_wire::ProtocolVersion;

/// The class whose methods carry content, whose content headers are put.
const CLASS_BASIC: u16 = 60;

/// The bit of the property `headers`.
const HEADERS_BIT: u16 = 13;

/// A mask has a bit that is no property's.
const BAD_ARGUMENT: u32 = 41;

/// Puts the frame of a content header with headers among its properties.
#[inline(always)]
fn put_with_headers(
    channel: u16,
    body_size: u64,
    properties: &MaskedProperties<'_>,
    max_payload: u32,
    out: &mut [u8],
) -> PutReport
    requires second { flag_at properties.now.mask 1 ≡ false }
    requires lowest { flag_at properties.now.mask 0 ≡ false }
    ensures { Reports (MakesHeader out.old out.new max_payload channel CLASS_BASIC body_size
        properties.now (headers_item properties.now) (headers_flaw properties.now)) result }
{
    let headers = TableContent::new(properties.headers);
    let put = put_masked_header(
        channel,
        CLASS_BASIC,
        body_size,
        properties,
        headers,
        max_payload,
        out,
    );
    report(put)
}

/// Puts the frame of a content header with the properties that a mask names.
#[unsafe(no_mangle)]
pub extern "C" fn feksroum_put_content_header(
    channel: u16,
    body_size: u64,
    properties: &MaskedProperties<'_>,
    max_payload: u32,
    out: &mut [u8],
) -> PutReport
    ensures put { flag_at properties.now.mask 1 ≡ false → flag_at properties.now.mask 0 ≡ false
        → Reports (MakesHeader out.old out.new max_payload channel CLASS_BASIC body_size
        properties.now (headers_item properties.now) (headers_flaw properties.now)) result }
    ensures unused { ¬ (HasNoUnusedBit properties.now.mask)
        → (result ≡ refused BAD_ARGUMENT) × (out.new ≡ out.old) }
{
    if !properties.has_no_unused_bit() {
        return refused(BAD_ARGUMENT);
    }
    if has_bit(properties.mask, HEADERS_BIT) {
        return put_with_headers(channel, body_size, properties, max_payload, out);
    }
    let put = put_masked_header(
        channel,
        CLASS_BASIC,
        body_size,
        properties,
        NoHeaders,
        max_payload,
        out,
    );
    report(put)
}

/// Puts the frame of a part of a body.
#[unsafe(no_mangle)]
pub extern "C" fn feksroum_put_body(
    channel: u16,
    body: &[u8],
    max_payload: u32,
    out: &mut [u8],
) -> PutReport
    ensures { Reports (MakesFrame out.old out.new max_payload (Body channel body.now) None) result }
{
    let put = put_body_frame(channel, body, max_payload, out);
    report(put)
}

/// Puts a heartbeat.
#[unsafe(no_mangle)]
pub extern "C" fn feksroum_put_heartbeat(out: &mut [u8]) -> PutReport
    ensures { Reports (MakesEight out.old out.new Beat) result }
{
    let put = put_heartbeat(out);
    report(put)
}

/// Puts a protocol header of this version.
#[unsafe(no_mangle)]
pub extern "C" fn feksroum_put_protocol_header(
    major: u8,
    minor: u8,
    revision: u8,
    out: &mut [u8],
) -> PutReport
    ensures { Reports (MakesEight out.old out.new (Proto major minor revision)) result }
{
    let version = ProtocolVersion {
        major,
        minor,
        revision,
    };
    let put = put_protocol_header(version, out);
    report(put)
}
