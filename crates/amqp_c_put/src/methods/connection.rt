//! Frames of the methods of class connection.

ghost use Rattle.std.specs.Prelude.{[], ◌∷◌, None};
ghost use Rattle.amqp_types.specs.Methods.{method};
ghost use Rattle.amqp_types.specs.Slots.{bytes_item, entries_item, number_item, text_item};
ghost use Rattle.amqp_entries.specs.Flaws.{long_flaw, text_flaw};
ghost use Rattle.amqp_put.specs.Flaws.{first_flaw};
ghost use Rattle.amqp_put.specs.Made.{MakesMethod};
ghost use Rattle.amqp_types.specs.Constants.{inner_depth};
ghost use Rattle.amqp_entries.specs.Contents.{table_flaw, table_in};
ghost use Rattle.amqp_c_put.specs.Reports.{Reports};

use crate::report::{PutReport, report};
use amqp_put_methods::{
    put_connection_blocked, put_connection_close, put_connection_close_ok, put_connection_open,
    put_connection_open_ok, put_connection_secure, put_connection_secure_ok, put_connection_start,
    put_connection_start_ok, put_connection_tune, put_connection_tune_ok, put_connection_unblocked,
    put_connection_update_secret, put_connection_update_secret_ok,
};

/// Puts a frame of connection.start.
#[unsafe(no_mangle)]
pub extern "C" fn feksroum_put_connection_start(
    channel: u16,
    version_major: u8,
    version_minor: u8,
    server_properties: &[u8],
    mechanisms: &[u8],
    locales: &[u8],
    max_payload: u32,
    out: &mut [u8],
) -> PutReport
    ensures { Reports (MakesMethod out.old out.new channel max_payload
        (method 10 10 (number_item version_major ∷ number_item version_minor
        ∷ entries_item (table_in inner_depth server_properties.now) ∷ bytes_item mechanisms.now
        ∷ bytes_item locales.now ∷ []))
        (first_flaw (table_flaw inner_depth server_properties.now ∷ long_flaw mechanisms.now
        ∷ long_flaw locales.now ∷ []))) result }
{
    let put = put_connection_start(
        channel,
        version_major,
        version_minor,
        server_properties,
        mechanisms,
        locales,
        max_payload,
        out,
    );
    report(put)
}

/// Puts a frame of connection.start-ok.
#[unsafe(no_mangle)]
pub extern "C" fn feksroum_put_connection_start_ok(
    channel: u16,
    client_properties: &[u8],
    mechanism: &[u8],
    response: &[u8],
    locale: &[u8],
    max_payload: u32,
    out: &mut [u8],
) -> PutReport
    ensures { Reports (MakesMethod out.old out.new channel max_payload
        (method 10 11 (entries_item (table_in inner_depth client_properties.now)
        ∷ text_item mechanism.now ∷ bytes_item response.now ∷ text_item locale.now ∷ []))
        (first_flaw (table_flaw inner_depth client_properties.now ∷ text_flaw mechanism.now
        ∷ long_flaw response.now ∷ text_flaw locale.now ∷ []))) result }
{
    let put = put_connection_start_ok(
        channel,
        client_properties,
        mechanism,
        response,
        locale,
        max_payload,
        out,
    );
    report(put)
}

/// Puts a frame of connection.secure.
#[unsafe(no_mangle)]
pub extern "C" fn feksroum_put_connection_secure(
    channel: u16,
    challenge: &[u8],
    max_payload: u32,
    out: &mut [u8],
) -> PutReport
    ensures { Reports (MakesMethod out.old out.new channel max_payload
        (method 10 20 (bytes_item challenge.now ∷ []))
        (first_flaw (long_flaw challenge.now ∷ []))) result }
{
    let put = put_connection_secure(channel, challenge, max_payload, out);
    report(put)
}

/// Puts a frame of connection.secure-ok.
#[unsafe(no_mangle)]
pub extern "C" fn feksroum_put_connection_secure_ok(
    channel: u16,
    response: &[u8],
    max_payload: u32,
    out: &mut [u8],
) -> PutReport
    ensures { Reports (MakesMethod out.old out.new channel max_payload
        (method 10 21 (bytes_item response.now ∷ []))
        (first_flaw (long_flaw response.now ∷ []))) result }
{
    let put = put_connection_secure_ok(channel, response, max_payload, out);
    report(put)
}

/// Puts a frame of connection.tune.
#[unsafe(no_mangle)]
pub extern "C" fn feksroum_put_connection_tune(
    channel: u16,
    channel_max: u16,
    frame_max: u32,
    heartbeat: u16,
    max_payload: u32,
    out: &mut [u8],
) -> PutReport
    ensures { Reports (MakesMethod out.old out.new channel max_payload
        (method 10 30 (number_item channel_max ∷ number_item frame_max
        ∷ number_item heartbeat ∷ []))
        None) result }
{
    let put = put_connection_tune(channel, channel_max, frame_max, heartbeat, max_payload, out);
    report(put)
}

/// Puts a frame of connection.tune-ok.
#[unsafe(no_mangle)]
pub extern "C" fn feksroum_put_connection_tune_ok(
    channel: u16,
    channel_max: u16,
    frame_max: u32,
    heartbeat: u16,
    max_payload: u32,
    out: &mut [u8],
) -> PutReport
    ensures { Reports (MakesMethod out.old out.new channel max_payload
        (method 10 31 (number_item channel_max ∷ number_item frame_max
        ∷ number_item heartbeat ∷ []))
        None) result }
{
    let put = put_connection_tune_ok(channel, channel_max, frame_max, heartbeat, max_payload, out);
    report(put)
}

/// Puts a frame of connection.open.
#[unsafe(no_mangle)]
pub extern "C" fn feksroum_put_connection_open(
    channel: u16,
    virtual_host: &[u8],
    max_payload: u32,
    out: &mut [u8],
) -> PutReport
    ensures { Reports (MakesMethod out.old out.new channel max_payload
        (method 10 40 (text_item virtual_host.now ∷ []))
        (first_flaw (text_flaw virtual_host.now ∷ []))) result }
{
    let put = put_connection_open(channel, virtual_host, max_payload, out);
    report(put)
}

/// Puts a frame of connection.open-ok.
#[unsafe(no_mangle)]
pub extern "C" fn feksroum_put_connection_open_ok(
    channel: u16,
    max_payload: u32,
    out: &mut [u8],
) -> PutReport
    ensures { Reports (MakesMethod out.old out.new channel max_payload
        (method 10 41 [])
        None) result }
{
    let put = put_connection_open_ok(channel, max_payload, out);
    report(put)
}

/// Puts a frame of connection.close.
#[unsafe(no_mangle)]
pub extern "C" fn feksroum_put_connection_close(
    channel: u16,
    reply_code: u16,
    reply_text: &[u8],
    class_id: u16,
    method_id: u16,
    max_payload: u32,
    out: &mut [u8],
) -> PutReport
    ensures { Reports (MakesMethod out.old out.new channel max_payload
        (method 10 50 (number_item reply_code ∷ text_item reply_text.now ∷ number_item class_id
        ∷ number_item method_id ∷ []))
        (first_flaw (text_flaw reply_text.now ∷ []))) result }
{
    let put = put_connection_close(
        channel,
        reply_code,
        reply_text,
        class_id,
        method_id,
        max_payload,
        out,
    );
    report(put)
}

/// Puts a frame of connection.close-ok.
#[unsafe(no_mangle)]
pub extern "C" fn feksroum_put_connection_close_ok(
    channel: u16,
    max_payload: u32,
    out: &mut [u8],
) -> PutReport
    ensures { Reports (MakesMethod out.old out.new channel max_payload
        (method 10 51 [])
        None) result }
{
    let put = put_connection_close_ok(channel, max_payload, out);
    report(put)
}

/// Puts a frame of connection.blocked.
#[unsafe(no_mangle)]
pub extern "C" fn feksroum_put_connection_blocked(
    channel: u16,
    reason: &[u8],
    max_payload: u32,
    out: &mut [u8],
) -> PutReport
    ensures { Reports (MakesMethod out.old out.new channel max_payload
        (method 10 60 (text_item reason.now ∷ []))
        (first_flaw (text_flaw reason.now ∷ []))) result }
{
    let put = put_connection_blocked(channel, reason, max_payload, out);
    report(put)
}

/// Puts a frame of connection.unblocked.
#[unsafe(no_mangle)]
pub extern "C" fn feksroum_put_connection_unblocked(
    channel: u16,
    max_payload: u32,
    out: &mut [u8],
) -> PutReport
    ensures { Reports (MakesMethod out.old out.new channel max_payload
        (method 10 61 [])
        None) result }
{
    let put = put_connection_unblocked(channel, max_payload, out);
    report(put)
}

/// Puts a frame of connection.update-secret.
#[unsafe(no_mangle)]
pub extern "C" fn feksroum_put_connection_update_secret(
    channel: u16,
    new_secret: &[u8],
    reason: &[u8],
    max_payload: u32,
    out: &mut [u8],
) -> PutReport
    ensures { Reports (MakesMethod out.old out.new channel max_payload
        (method 10 70 (bytes_item new_secret.now ∷ text_item reason.now ∷ []))
        (first_flaw (long_flaw new_secret.now ∷ text_flaw reason.now ∷ []))) result }
{
    let put = put_connection_update_secret(channel, new_secret, reason, max_payload, out);
    report(put)
}

/// Puts a frame of connection.update-secret-ok.
#[unsafe(no_mangle)]
pub extern "C" fn feksroum_put_connection_update_secret_ok(
    channel: u16,
    max_payload: u32,
    out: &mut [u8],
) -> PutReport
    ensures { Reports (MakesMethod out.old out.new channel max_payload
        (method 10 71 [])
        None) result }
{
    let put = put_connection_update_secret_ok(channel, max_payload, out);
    report(put)
}
