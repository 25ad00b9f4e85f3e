//! Frames of the methods of class tx.

ghost use Rattle.std.specs.Prelude.{[], None};
ghost use Rattle.amqp_types.specs.Methods.{method};
ghost use Rattle.amqp_put.specs.Made.{MakesMethod};
ghost use Rattle.amqp_c_put.specs.Reports.{Reports};

use crate::report::{PutReport, report};
use amqp_put_methods::{
    put_tx_commit, put_tx_commit_ok, put_tx_rollback, put_tx_rollback_ok, put_tx_select,
    put_tx_select_ok,
};

/// Puts a frame of tx.select.
#[unsafe(no_mangle)]
pub extern "C" fn feksroum_put_tx_select(
    channel: u16,
    max_payload: u32,
    out: &mut [u8],
) -> PutReport
    ensures { Reports (MakesMethod out.old out.new channel max_payload
        (method 90 10 [])
        None) result }
{
    let put = put_tx_select(channel, max_payload, out);
    report(put)
}

/// Puts a frame of tx.select-ok.
#[unsafe(no_mangle)]
pub extern "C" fn feksroum_put_tx_select_ok(
    channel: u16,
    max_payload: u32,
    out: &mut [u8],
) -> PutReport
    ensures { Reports (MakesMethod out.old out.new channel max_payload
        (method 90 11 [])
        None) result }
{
    let put = put_tx_select_ok(channel, max_payload, out);
    report(put)
}

/// Puts a frame of tx.commit.
#[unsafe(no_mangle)]
pub extern "C" fn feksroum_put_tx_commit(
    channel: u16,
    max_payload: u32,
    out: &mut [u8],
) -> PutReport
    ensures { Reports (MakesMethod out.old out.new channel max_payload
        (method 90 20 [])
        None) result }
{
    let put = put_tx_commit(channel, max_payload, out);
    report(put)
}

/// Puts a frame of tx.commit-ok.
#[unsafe(no_mangle)]
pub extern "C" fn feksroum_put_tx_commit_ok(
    channel: u16,
    max_payload: u32,
    out: &mut [u8],
) -> PutReport
    ensures { Reports (MakesMethod out.old out.new channel max_payload
        (method 90 21 [])
        None) result }
{
    let put = put_tx_commit_ok(channel, max_payload, out);
    report(put)
}

/// Puts a frame of tx.rollback.
#[unsafe(no_mangle)]
pub extern "C" fn feksroum_put_tx_rollback(
    channel: u16,
    max_payload: u32,
    out: &mut [u8],
) -> PutReport
    ensures { Reports (MakesMethod out.old out.new channel max_payload
        (method 90 30 [])
        None) result }
{
    let put = put_tx_rollback(channel, max_payload, out);
    report(put)
}

/// Puts a frame of tx.rollback-ok.
#[unsafe(no_mangle)]
pub extern "C" fn feksroum_put_tx_rollback_ok(
    channel: u16,
    max_payload: u32,
    out: &mut [u8],
) -> PutReport
    ensures { Reports (MakesMethod out.old out.new channel max_payload
        (method 90 31 [])
        None) result }
{
    let put = put_tx_rollback_ok(channel, max_payload, out);
    report(put)
}
