//! A table that is nested too deep, which is written nowhere.

use crate::samples::{Sample, deep_table};
use amqp_frame::{AMQPFrame, GenError, gen_frame_slice, release};
use amqp_values::{FieldTable, gen_field_table};
use amqp_vectors::asking::same;
use std::alloc::Global;
use std::test::Fail;

/// Whether a table is refused as too deep, and bytes that stood before it stay.
fn is_refused(alloc: Global, table: &FieldTable) -> Result<bool, Fail> {
    let mut out = vec![in alloc; 1, 2, 3]?;
    let outcome = gen_field_table(alloc, &mut out, table);
    Ok(outcome == Err(GenError::TooDeep) && out.as_slice() == [1, 2, 3].as_slice())
}

/// Whether a frame is, and a slice stays.
fn is_refused_by_a_slice(frame: AMQPFrame) -> bool {
    let mut depth_left = [7; 7];
    let outcome = gen_frame_slice(&mut depth_left, &frame);
    release(frame);
    outcome == Err(GenError::TooDeep) && depth_left == [7; 7]
}

#[test]
fn a_table_that_is_too_deep_is_written_nowhere(rt: HostRuntime) -> Result<(), Fail> {
    let table = deep_table(rt.alloc())?;
    let answer = is_refused(rt.alloc(), &table);
    same(answer?, true)?;
    let frame = Sample::TooDeep.frame(rt.alloc())?;
    same(is_refused_by_a_slice(frame), true)
}
