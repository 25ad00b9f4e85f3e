//! Frames of the methods of class access.

ghost use Rattle.std.specs.Prelude.{[], ◌∷◌, None};
ghost use Rattle.amqp_types.specs.Methods.{method};
ghost use Rattle.amqp_types.specs.Slots.{flag_item, text_item};
ghost use Rattle.amqp_entries.specs.Flaws.{text_flaw};
ghost use Rattle.amqp_put.specs.Flaws.{first_flaw};
ghost use Rattle.amqp_put.specs.Made.{MakesMethod};
ghost use Rattle.amqp_c_put.specs.Reports.{Reports};

use crate::report::{PutReport, report};
use amqp_put_methods::{put_access_request, put_access_request_ok};

/// Puts a frame of access.request.
#[unsafe(no_mangle)]
pub extern "C" fn feksroum_put_access_request(
    channel: u16,
    realm: &[u8],
    exclusive: bool,
    passive: bool,
    active: bool,
    write: bool,
    read: bool,
    max_payload: u32,
    out: &mut [u8],
) -> PutReport
    ensures { Reports (MakesMethod out.old out.new channel max_payload
        (method 30 10 (text_item realm.now ∷ flag_item exclusive ∷ flag_item passive
        ∷ flag_item active ∷ flag_item write ∷ flag_item read ∷ []))
        (first_flaw (text_flaw realm.now ∷ []))) result }
{
    let put = put_access_request(
        channel,
        realm,
        exclusive,
        passive,
        active,
        write,
        read,
        max_payload,
        out,
    );
    report(put)
}

/// Puts a frame of access.request-ok.
#[unsafe(no_mangle)]
pub extern "C" fn feksroum_put_access_request_ok(
    channel: u16,
    max_payload: u32,
    out: &mut [u8],
) -> PutReport
    ensures { Reports (MakesMethod out.old out.new channel max_payload
        (method 30 11 [])
        None) result }
{
    let put = put_access_request_ok(channel, max_payload, out);
    report(put)
}
