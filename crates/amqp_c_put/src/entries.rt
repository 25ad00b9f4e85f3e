//! Entries that are appended to what fills a table.

ghost use Rattle.std.specs.Prelude.{◌-◌, None};
ghost use Rattle.amqp_types.specs.Constants.{inner_depth};
ghost use Rattle.amqp_types.specs.Values.{array_value, boolean_value, byte_array, bytes_value};
ghost use Rattle.amqp_types.specs.Values.{decimal_value, double, entries_of, float, long_int};
ghost use Rattle.amqp_types.specs.Values.{long_long_int, long_string, long_uint, short_int};
ghost use Rattle.amqp_types.specs.Values.{short_short_int, short_short_uint, short_uint};
ghost use Rattle.amqp_types.specs.Values.{signed_value, table_value, timestamp};
ghost use Rattle.amqp_types.specs.Values.{unsigned_value, values_of, void_value};
ghost use Rattle.amqp_entries.specs.Appending.{AppendsEntry};
ghost use Rattle.amqp_entries.specs.Contents.{array_flaw, array_in, table_flaw, table_in};
ghost use Rattle.amqp_entries.specs.Flaws.{long_flaw};
ghost use Rattle.amqp_c_put.specs.Reports.{Reports};

use crate::report::{PutReport, report};
use amqp_entries::{
    ArrayValue, ByteArrayValue, DoubleValue, FloatValue, LongStringValue, TableValue,
    TimestampValue, VoidValue, append_entry,
};
use amqp_types::DecimalValue;

/// Appends an entry: a truth value, `t`.
#[unsafe(no_mangle)]
pub extern "C" fn feksroum_append_entry_bool(
    out: &mut [u8],
    at: usize,
    key: &[u8],
    value: bool,
) -> PutReport
    ensures { Reports (AppendsEntry out.old out.new at key.now (boolean_value value) None) result }
{
    let put = append_entry(out, at, key, &value);
    report(put)
}

/// Appends an entry: a signed number of 1 byte, `b`.
#[unsafe(no_mangle)]
pub extern "C" fn feksroum_append_entry_int8(
    out: &mut [u8],
    at: usize,
    key: &[u8],
    value: i8,
) -> PutReport
    ensures { Reports (AppendsEntry out.old out.new at key.now
        (signed_value short_short_int value)
        None) result }
{
    let put = append_entry(out, at, key, &value);
    report(put)
}

/// Appends an entry: an unsigned number of 1 byte, `B`.
#[unsafe(no_mangle)]
pub extern "C" fn feksroum_append_entry_uint8(
    out: &mut [u8],
    at: usize,
    key: &[u8],
    value: u8,
) -> PutReport
    ensures { Reports (AppendsEntry out.old out.new at key.now
        (unsigned_value short_short_uint value)
        None) result }
{
    let put = append_entry(out, at, key, &value);
    report(put)
}

/// Appends an entry: a signed number of 2 bytes, `s`.
#[unsafe(no_mangle)]
pub extern "C" fn feksroum_append_entry_int16(
    out: &mut [u8],
    at: usize,
    key: &[u8],
    value: i16,
) -> PutReport
    ensures { Reports (AppendsEntry out.old out.new at key.now
        (signed_value short_int value)
        None) result }
{
    let put = append_entry(out, at, key, &value);
    report(put)
}

/// Appends an entry: an unsigned number of 2 bytes, `u`.
#[unsafe(no_mangle)]
pub extern "C" fn feksroum_append_entry_uint16(
    out: &mut [u8],
    at: usize,
    key: &[u8],
    value: u16,
) -> PutReport
    ensures { Reports (AppendsEntry out.old out.new at key.now
        (unsigned_value short_uint value)
        None) result }
{
    let put = append_entry(out, at, key, &value);
    report(put)
}

/// Appends an entry: a signed number of 4 bytes, `I`.
#[unsafe(no_mangle)]
pub extern "C" fn feksroum_append_entry_int32(
    out: &mut [u8],
    at: usize,
    key: &[u8],
    value: i32,
) -> PutReport
    ensures { Reports (AppendsEntry out.old out.new at key.now
        (signed_value long_int value)
        None) result }
{
    let put = append_entry(out, at, key, &value);
    report(put)
}

/// Appends an entry: an unsigned number of 4 bytes, `i`.
#[unsafe(no_mangle)]
pub extern "C" fn feksroum_append_entry_uint32(
    out: &mut [u8],
    at: usize,
    key: &[u8],
    value: u32,
) -> PutReport
    ensures { Reports (AppendsEntry out.old out.new at key.now
        (unsigned_value long_uint value)
        None) result }
{
    let put = append_entry(out, at, key, &value);
    report(put)
}

/// Appends an entry: a signed number of 8 bytes, `l`.
#[unsafe(no_mangle)]
pub extern "C" fn feksroum_append_entry_int64(
    out: &mut [u8],
    at: usize,
    key: &[u8],
    value: i64,
) -> PutReport
    ensures { Reports (AppendsEntry out.old out.new at key.now
        (signed_value long_long_int value)
        None) result }
{
    let put = append_entry(out, at, key, &value);
    report(put)
}

/// Appends an entry: a number of 4 bytes with a fraction, `f`, by its bits.
#[unsafe(no_mangle)]
pub extern "C" fn feksroum_append_entry_float(
    out: &mut [u8],
    at: usize,
    key: &[u8],
    bits: u32,
) -> PutReport
    ensures { Reports (AppendsEntry out.old out.new at key.now
        (unsigned_value float bits)
        None) result }
{
    let value = FloatValue { bits };
    let put = append_entry(out, at, key, &value);
    report(put)
}

/// Appends an entry: a number of 8 bytes with a fraction, `d`, by its bits.
#[unsafe(no_mangle)]
pub extern "C" fn feksroum_append_entry_double(
    out: &mut [u8],
    at: usize,
    key: &[u8],
    bits: u64,
) -> PutReport
    ensures { Reports (AppendsEntry out.old out.new at key.now
        (unsigned_value double bits)
        None) result }
{
    let value = DoubleValue { bits };
    let put = append_entry(out, at, key, &value);
    report(put)
}

/// Appends an entry: a scale and a number, `D`.
#[unsafe(no_mangle)]
pub extern "C" fn feksroum_append_entry_decimal(
    out: &mut [u8],
    at: usize,
    key: &[u8],
    scale: u8,
    value: u32,
) -> PutReport
    ensures { Reports (AppendsEntry out.old out.new at key.now
        (decimal_value scale value)
        None) result }
{
    let value = DecimalValue { scale, value };
    let put = append_entry(out, at, key, &value);
    report(put)
}

/// Appends an entry: a long string, `S`.
#[unsafe(no_mangle)]
pub extern "C" fn feksroum_append_entry_string(
    out: &mut [u8],
    at: usize,
    key: &[u8],
    value: &[u8],
) -> PutReport
    ensures { Reports (AppendsEntry out.old out.new at key.now
        (bytes_value long_string value.now)
        (long_flaw value.now)) result }
{
    let value = LongStringValue { bytes: value };
    let put = append_entry(out, at, key, &value);
    report(put)
}

/// Appends an entry: an array, `A`, by what fills it.
#[unsafe(no_mangle)]
pub extern "C" fn feksroum_append_entry_array(
    out: &mut [u8],
    at: usize,
    key: &[u8],
    value: &[u8],
) -> PutReport
    ensures { Reports (AppendsEntry out.old out.new at key.now
        (array_value (values_of (array_in (inner_depth - 1) value.now)))
        (array_flaw (inner_depth - 1) value.now)) result }
{
    let value = ArrayValue::new(value);
    let put = append_entry(out, at, key, &value);
    report(put)
}

/// Appends an entry: a time, `T`, in seconds since the beginning of 1970.
#[unsafe(no_mangle)]
pub extern "C" fn feksroum_append_entry_timestamp(
    out: &mut [u8],
    at: usize,
    key: &[u8],
    seconds: u64,
) -> PutReport
    ensures { Reports (AppendsEntry out.old out.new at key.now
        (unsigned_value timestamp seconds)
        None) result }
{
    let value = TimestampValue { seconds };
    let put = append_entry(out, at, key, &value);
    report(put)
}

/// Appends an entry: a table, `F`, by what fills it.
#[unsafe(no_mangle)]
pub extern "C" fn feksroum_append_entry_table(
    out: &mut [u8],
    at: usize,
    key: &[u8],
    value: &[u8],
) -> PutReport
    ensures { Reports (AppendsEntry out.old out.new at key.now
        (table_value (entries_of (table_in (inner_depth - 1) value.now)))
        (table_flaw (inner_depth - 1) value.now)) result }
{
    let value = TableValue::new(value);
    let put = append_entry(out, at, key, &value);
    report(put)
}

/// Appends an entry: nothing, `V`.
#[unsafe(no_mangle)]
pub extern "C" fn feksroum_append_entry_void(out: &mut [u8], at: usize, key: &[u8]) -> PutReport
    ensures { Reports (AppendsEntry out.old out.new at key.now void_value None) result }
{
    let value = VoidValue;
    let put = append_entry(out, at, key, &value);
    report(put)
}

/// Appends an entry: a byte array, `x`.
#[unsafe(no_mangle)]
pub extern "C" fn feksroum_append_entry_bytes(
    out: &mut [u8],
    at: usize,
    key: &[u8],
    value: &[u8],
) -> PutReport
    ensures { Reports (AppendsEntry out.old out.new at key.now
        (bytes_value byte_array value.now)
        (long_flaw value.now)) result }
{
    let value = ByteArrayValue { bytes: value };
    let put = append_entry(out, at, key, &value);
    report(put)
}
