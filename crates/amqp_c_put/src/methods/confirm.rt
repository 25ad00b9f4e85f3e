//! Frames of the methods of class confirm.

ghost use Rattle.std.specs.Prelude.{[], ◌∷◌, None};
ghost use Rattle.amqp_types.specs.Methods.{method};
ghost use Rattle.amqp_types.specs.Slots.{flag_item};
ghost use Rattle.amqp_put.specs.Made.{MakesMethod};
ghost use Rattle.amqp_c_put.specs.Reports.{Reports};

use crate::report::{PutReport, report};
use amqp_put_methods::{put_confirm_select, put_confirm_select_ok};

/// Puts a frame of confirm.select.
#[unsafe(no_mangle)]
pub extern "C" fn feksroum_put_confirm_select(
    channel: u16,
    nowait: bool,
    max_payload: u32,
    out: &mut [u8],
) -> PutReport
    ensures { Reports (MakesMethod out.old out.new channel max_payload
        (method 85 10 (flag_item nowait ∷ []))
        None) result }
{
    let put = put_confirm_select(channel, nowait, max_payload, out);
    report(put)
}

/// Puts a frame of confirm.select-ok.
#[unsafe(no_mangle)]
pub extern "C" fn feksroum_put_confirm_select_ok(
    channel: u16,
    max_payload: u32,
    out: &mut [u8],
) -> PutReport
    ensures { Reports (MakesMethod out.old out.new channel max_payload
        (method 85 11 [])
        None) result }
{
    let put = put_confirm_select_ok(channel, max_payload, out);
    report(put)
}
