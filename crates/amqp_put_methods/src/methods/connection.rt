//! Frames of the methods of class connection.

ghost use Rattle.std.specs.Prelude.{[], ◌∷◌, None};
ghost use Rattle.amqp_types.specs.Methods.{method};
ghost use Rattle.amqp_types.specs.Slots.{bytes_item, entries_item, number_item, text_item};
ghost use Rattle.amqp_entries.specs.Flaws.{long_flaw, text_flaw};
ghost use Rattle.amqp_put.specs.Flaws.{first_flaw};
ghost use Rattle.amqp_put.specs.Made.{MakesMethod};
ghost use Rattle.amqp_types.specs.Constants.{inner_depth};
ghost use Rattle.amqp_entries.specs.Contents.{table_flaw, table_in};

use amqp_put::{
    LongBytes, PutError, ReservedFlag, ReservedShortString, TableContent, Text, put_method_frame,
};
use amqp_types::ChannelId;

/// Puts a frame of connection.start.
#[tactic(auto, unfolding(amqp_types::specs::Rows::slots_at, amqp_types::specs::Rows::rows_of))]
pub fn put_connection_start(
    channel: ChannelId,
    version_major: u8,
    version_minor: u8,
    server_properties: &[u8],
    mechanisms: &[u8],
    locales: &[u8],
    max_payload: u32,
    out: &mut [u8],
) -> Result<usize, PutError>
    ensures { MakesMethod out.old out.new channel max_payload
        (method 10 10 (number_item version_major ∷ number_item version_minor
        ∷ entries_item (table_in inner_depth server_properties.now) ∷ bytes_item mechanisms.now
        ∷ bytes_item locales.now ∷ []))
        (first_flaw (table_flaw inner_depth server_properties.now ∷ long_flaw mechanisms.now
        ∷ long_flaw locales.now ∷ [])) result }
{
    let fields = (
        version_major,
        (
            version_minor,
            (
                TableContent::new(server_properties),
                (
                    LongBytes { bytes: mechanisms },
                    (LongBytes { bytes: locales }, ()),
                ),
            ),
        ),
    );
    put_method_frame(10, 10, channel, &fields, max_payload, out)
}

/// Puts a frame of connection.start-ok.
#[tactic(auto, unfolding(amqp_types::specs::Rows::slots_at, amqp_types::specs::Rows::rows_of))]
pub fn put_connection_start_ok(
    channel: ChannelId,
    client_properties: &[u8],
    mechanism: &[u8],
    response: &[u8],
    locale: &[u8],
    max_payload: u32,
    out: &mut [u8],
) -> Result<usize, PutError>
    ensures { MakesMethod out.old out.new channel max_payload
        (method 10 11 (entries_item (table_in inner_depth client_properties.now)
        ∷ text_item mechanism.now ∷ bytes_item response.now ∷ text_item locale.now ∷ []))
        (first_flaw (table_flaw inner_depth client_properties.now ∷ text_flaw mechanism.now
        ∷ long_flaw response.now ∷ text_flaw locale.now ∷ [])) result }
{
    let fields = (
        TableContent::new(client_properties),
        (
            Text { bytes: mechanism },
            (LongBytes { bytes: response }, (Text { bytes: locale }, ())),
        ),
    );
    put_method_frame(10, 11, channel, &fields, max_payload, out)
}

/// Puts a frame of connection.secure.
#[tactic(auto, unfolding(amqp_types::specs::Rows::slots_at, amqp_types::specs::Rows::rows_of))]
pub fn put_connection_secure(
    channel: ChannelId,
    challenge: &[u8],
    max_payload: u32,
    out: &mut [u8],
) -> Result<usize, PutError>
    ensures { MakesMethod out.old out.new channel max_payload
        (method 10 20 (bytes_item challenge.now ∷ []))
        (first_flaw (long_flaw challenge.now ∷ [])) result }
{
    let fields = (LongBytes { bytes: challenge }, ());
    put_method_frame(10, 20, channel, &fields, max_payload, out)
}

/// Puts a frame of connection.secure-ok.
#[tactic(auto, unfolding(amqp_types::specs::Rows::slots_at, amqp_types::specs::Rows::rows_of))]
pub fn put_connection_secure_ok(
    channel: ChannelId,
    response: &[u8],
    max_payload: u32,
    out: &mut [u8],
) -> Result<usize, PutError>
    ensures { MakesMethod out.old out.new channel max_payload
        (method 10 21 (bytes_item response.now ∷ []))
        (first_flaw (long_flaw response.now ∷ [])) result }
{
    let fields = (LongBytes { bytes: response }, ());
    put_method_frame(10, 21, channel, &fields, max_payload, out)
}

/// Puts a frame of connection.tune.
#[tactic(auto, unfolding(amqp_types::specs::Rows::slots_at, amqp_types::specs::Rows::rows_of))]
pub fn put_connection_tune(
    channel: ChannelId,
    channel_max: u16,
    frame_max: u32,
    heartbeat: u16,
    max_payload: u32,
    out: &mut [u8],
) -> Result<usize, PutError>
    ensures { MakesMethod out.old out.new channel max_payload
        (method 10 30 (number_item channel_max ∷ number_item frame_max
        ∷ number_item heartbeat ∷ []))
        None result }
{
    let fields = (channel_max, (frame_max, (heartbeat, ())));
    put_method_frame(10, 30, channel, &fields, max_payload, out)
}

/// Puts a frame of connection.tune-ok.
#[tactic(auto, unfolding(amqp_types::specs::Rows::slots_at, amqp_types::specs::Rows::rows_of))]
pub fn put_connection_tune_ok(
    channel: ChannelId,
    channel_max: u16,
    frame_max: u32,
    heartbeat: u16,
    max_payload: u32,
    out: &mut [u8],
) -> Result<usize, PutError>
    ensures { MakesMethod out.old out.new channel max_payload
        (method 10 31 (number_item channel_max ∷ number_item frame_max
        ∷ number_item heartbeat ∷ []))
        None result }
{
    let fields = (channel_max, (frame_max, (heartbeat, ())));
    put_method_frame(10, 31, channel, &fields, max_payload, out)
}

/// Puts a frame of connection.open.
#[tactic(auto, unfolding(amqp_types::specs::Rows::slots_at, amqp_types::specs::Rows::rows_of))]
pub fn put_connection_open(
    channel: ChannelId,
    virtual_host: &[u8],
    max_payload: u32,
    out: &mut [u8],
) -> Result<usize, PutError>
    ensures { MakesMethod out.old out.new channel max_payload
        (method 10 40 (text_item virtual_host.now ∷ []))
        (first_flaw (text_flaw virtual_host.now ∷ [])) result }
{
    let fields = (
        Text {
            bytes: virtual_host,
        },
        (ReservedShortString, (ReservedFlag, ())),
    );
    put_method_frame(10, 40, channel, &fields, max_payload, out)
}

/// Puts a frame of connection.open-ok.
#[tactic(auto, unfolding(amqp_types::specs::Rows::slots_at, amqp_types::specs::Rows::rows_of))]
pub fn put_connection_open_ok(
    channel: ChannelId,
    max_payload: u32,
    out: &mut [u8],
) -> Result<usize, PutError>
    ensures { MakesMethod out.old out.new channel max_payload (method 10 41 []) None result }
{
    let fields = (ReservedShortString, ());
    put_method_frame(10, 41, channel, &fields, max_payload, out)
}

/// Puts a frame of connection.close.
#[tactic(auto, unfolding(amqp_types::specs::Rows::slots_at, amqp_types::specs::Rows::rows_of))]
pub fn put_connection_close(
    channel: ChannelId,
    reply_code: u16,
    reply_text: &[u8],
    class_id: u16,
    method_id: u16,
    max_payload: u32,
    out: &mut [u8],
) -> Result<usize, PutError>
    ensures { MakesMethod out.old out.new channel max_payload
        (method 10 50 (number_item reply_code ∷ text_item reply_text.now ∷ number_item class_id
        ∷ number_item method_id ∷ []))
        (first_flaw (text_flaw reply_text.now ∷ [])) result }
{
    let fields = (
        reply_code,
        (Text { bytes: reply_text }, (class_id, (method_id, ()))),
    );
    put_method_frame(10, 50, channel, &fields, max_payload, out)
}

/// Puts a frame of connection.close-ok.
#[tactic(auto, unfolding(amqp_types::specs::Rows::slots_at, amqp_types::specs::Rows::rows_of))]
pub fn put_connection_close_ok(
    channel: ChannelId,
    max_payload: u32,
    out: &mut [u8],
) -> Result<usize, PutError>
    ensures { MakesMethod out.old out.new channel max_payload (method 10 51 []) None result }
{
    let fields = ();
    put_method_frame(10, 51, channel, &fields, max_payload, out)
}

/// Puts a frame of connection.blocked.
#[tactic(auto, unfolding(amqp_types::specs::Rows::slots_at, amqp_types::specs::Rows::rows_of))]
pub fn put_connection_blocked(
    channel: ChannelId,
    reason: &[u8],
    max_payload: u32,
    out: &mut [u8],
) -> Result<usize, PutError>
    ensures { MakesMethod out.old out.new channel max_payload
        (method 10 60 (text_item reason.now ∷ []))
        (first_flaw (text_flaw reason.now ∷ [])) result }
{
    let fields = (Text { bytes: reason }, ());
    put_method_frame(10, 60, channel, &fields, max_payload, out)
}

/// Puts a frame of connection.unblocked.
#[tactic(auto, unfolding(amqp_types::specs::Rows::slots_at, amqp_types::specs::Rows::rows_of))]
pub fn put_connection_unblocked(
    channel: ChannelId,
    max_payload: u32,
    out: &mut [u8],
) -> Result<usize, PutError>
    ensures { MakesMethod out.old out.new channel max_payload (method 10 61 []) None result }
{
    let fields = ();
    put_method_frame(10, 61, channel, &fields, max_payload, out)
}

/// Puts a frame of connection.update-secret.
#[tactic(auto, unfolding(amqp_types::specs::Rows::slots_at, amqp_types::specs::Rows::rows_of))]
pub fn put_connection_update_secret(
    channel: ChannelId,
    new_secret: &[u8],
    reason: &[u8],
    max_payload: u32,
    out: &mut [u8],
) -> Result<usize, PutError>
    ensures { MakesMethod out.old out.new channel max_payload
        (method 10 70 (bytes_item new_secret.now ∷ text_item reason.now ∷ []))
        (first_flaw (long_flaw new_secret.now ∷ text_flaw reason.now ∷ [])) result }
{
    let fields = (
        LongBytes { bytes: new_secret },
        (Text { bytes: reason }, ()),
    );
    put_method_frame(10, 70, channel, &fields, max_payload, out)
}

/// Puts a frame of connection.update-secret-ok.
#[tactic(auto, unfolding(amqp_types::specs::Rows::slots_at, amqp_types::specs::Rows::rows_of))]
pub fn put_connection_update_secret_ok(
    channel: ChannelId,
    max_payload: u32,
    out: &mut [u8],
) -> Result<usize, PutError>
    ensures { MakesMethod out.old out.new channel max_payload (method 10 71 []) None result }
{
    let fields = ();
    put_method_frame(10, 71, channel, &fields, max_payload, out)
}
