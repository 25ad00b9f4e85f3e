//! Values that are appended to what fills an array.

ghost use Rattle.std.specs.Prelude.{◌-◌, None};
ghost use Rattle.amqp_types.specs.Constants.{inner_depth};
ghost use Rattle.amqp_types.specs.Values.{array_value, boolean_value, byte_array, bytes_value};
ghost use Rattle.amqp_types.specs.Values.{decimal_value, double, entries_of, float, long_int};
ghost use Rattle.amqp_types.specs.Values.{long_long_int, long_string, long_uint, short_int};
ghost use Rattle.amqp_types.specs.Values.{short_short_int, short_short_uint, short_uint};
ghost use Rattle.amqp_types.specs.Values.{signed_value, table_value, timestamp};
ghost use Rattle.amqp_types.specs.Values.{unsigned_value, values_of, void_value};
ghost use Rattle.amqp_entries.specs.Appending.{AppendsValue};
ghost use Rattle.amqp_entries.specs.Contents.{array_flaw, array_in, table_flaw, table_in};
ghost use Rattle.amqp_entries.specs.Flaws.{long_flaw};
ghost use Rattle.amqp_c_put.specs.Reports.{Reports};

use crate::report::{PutReport, report};
use amqp_entries::{
    ArrayValue, ByteArrayValue, DoubleValue, FloatValue, LongStringValue, TableValue,
    TimestampValue, VoidValue, append_value,
};
use amqp_types::DecimalValue;

/// Appends a value of an array: a truth value, `t`.
#[unsafe(no_mangle)]
pub extern "C" fn feksroum_append_value_bool(out: &mut [u8], at: usize, value: bool) -> PutReport
    ensures { Reports (AppendsValue out.old out.new at (boolean_value value) None) result }
{
    let put = append_value(out, at, &value);
    report(put)
}

/// Appends a value of an array: a signed number of 1 byte, `b`.
#[unsafe(no_mangle)]
pub extern "C" fn feksroum_append_value_int8(out: &mut [u8], at: usize, value: i8) -> PutReport
    ensures { Reports (AppendsValue out.old out.new at
        (signed_value short_short_int value)
        None) result }
{
    let put = append_value(out, at, &value);
    report(put)
}

/// Appends a value of an array: an unsigned number of 1 byte, `B`.
#[unsafe(no_mangle)]
pub extern "C" fn feksroum_append_value_uint8(out: &mut [u8], at: usize, value: u8) -> PutReport
    ensures { Reports (AppendsValue out.old out.new at
        (unsigned_value short_short_uint value)
        None) result }
{
    let put = append_value(out, at, &value);
    report(put)
}

/// Appends a value of an array: a signed number of 2 bytes, `s`.
#[unsafe(no_mangle)]
pub extern "C" fn feksroum_append_value_int16(out: &mut [u8], at: usize, value: i16) -> PutReport
    ensures { Reports (AppendsValue out.old out.new at (signed_value short_int value) None) result }
{
    let put = append_value(out, at, &value);
    report(put)
}

/// Appends a value of an array: an unsigned number of 2 bytes, `u`.
#[unsafe(no_mangle)]
pub extern "C" fn feksroum_append_value_uint16(out: &mut [u8], at: usize, value: u16) -> PutReport
    ensures { Reports (AppendsValue out.old out.new at
        (unsigned_value short_uint value)
        None) result }
{
    let put = append_value(out, at, &value);
    report(put)
}

/// Appends a value of an array: a signed number of 4 bytes, `I`.
#[unsafe(no_mangle)]
pub extern "C" fn feksroum_append_value_int32(out: &mut [u8], at: usize, value: i32) -> PutReport
    ensures { Reports (AppendsValue out.old out.new at (signed_value long_int value) None) result }
{
    let put = append_value(out, at, &value);
    report(put)
}

/// Appends a value of an array: an unsigned number of 4 bytes, `i`.
#[unsafe(no_mangle)]
pub extern "C" fn feksroum_append_value_uint32(out: &mut [u8], at: usize, value: u32) -> PutReport
    ensures { Reports (AppendsValue out.old out.new at
        (unsigned_value long_uint value)
        None) result }
{
    let put = append_value(out, at, &value);
    report(put)
}

/// Appends a value of an array: a signed number of 8 bytes, `l`.
#[unsafe(no_mangle)]
pub extern "C" fn feksroum_append_value_int64(out: &mut [u8], at: usize, value: i64) -> PutReport
    ensures { Reports (AppendsValue out.old out.new at
        (signed_value long_long_int value)
        None) result }
{
    let put = append_value(out, at, &value);
    report(put)
}

/// Appends a value of an array: a number of 4 bytes with a fraction, `f`, by its bits.
#[unsafe(no_mangle)]
pub extern "C" fn feksroum_append_value_float(out: &mut [u8], at: usize, bits: u32) -> PutReport
    ensures { Reports (AppendsValue out.old out.new at (unsigned_value float bits) None) result }
{
    let value = FloatValue { bits };
    let put = append_value(out, at, &value);
    report(put)
}

/// Appends a value of an array: a number of 8 bytes with a fraction, `d`, by its bits.
#[unsafe(no_mangle)]
pub extern "C" fn feksroum_append_value_double(out: &mut [u8], at: usize, bits: u64) -> PutReport
    ensures { Reports (AppendsValue out.old out.new at (unsigned_value double bits) None) result }
{
    let value = DoubleValue { bits };
    let put = append_value(out, at, &value);
    report(put)
}

/// Appends a value of an array: a scale and a number, `D`.
#[unsafe(no_mangle)]
pub extern "C" fn feksroum_append_value_decimal(
    out: &mut [u8],
    at: usize,
    scale: u8,
    value: u32,
) -> PutReport
    ensures { Reports (AppendsValue out.old out.new at (decimal_value scale value) None) result }
{
    let value = DecimalValue { scale, value };
    let put = append_value(out, at, &value);
    report(put)
}

/// Appends a value of an array: a long string, `S`.
#[unsafe(no_mangle)]
pub extern "C" fn feksroum_append_value_string(out: &mut [u8], at: usize, value: &[u8]) -> PutReport
    ensures { Reports (AppendsValue out.old out.new at
        (bytes_value long_string value.now)
        (long_flaw value.now)) result }
{
    let value = LongStringValue { bytes: value };
    let put = append_value(out, at, &value);
    report(put)
}

/// Appends a value of an array: an array, `A`, by what fills it.
#[unsafe(no_mangle)]
pub extern "C" fn feksroum_append_value_array(out: &mut [u8], at: usize, value: &[u8]) -> PutReport
    ensures { Reports (AppendsValue out.old out.new at
        (array_value (values_of (array_in (inner_depth - 1) value.now)))
        (array_flaw (inner_depth - 1) value.now)) result }
{
    let value = ArrayValue::new(value);
    let put = append_value(out, at, &value);
    report(put)
}

/// Appends a value of an array: a time, `T`, in seconds since the beginning of 1970.
#[unsafe(no_mangle)]
pub extern "C" fn feksroum_append_value_timestamp(
    out: &mut [u8],
    at: usize,
    seconds: u64,
) -> PutReport
    ensures { Reports (AppendsValue out.old out.new at
        (unsigned_value timestamp seconds)
        None) result }
{
    let value = TimestampValue { seconds };
    let put = append_value(out, at, &value);
    report(put)
}

/// Appends a value of an array: a table, `F`, by what fills it.
#[unsafe(no_mangle)]
pub extern "C" fn feksroum_append_value_table(out: &mut [u8], at: usize, value: &[u8]) -> PutReport
    ensures { Reports (AppendsValue out.old out.new at
        (table_value (entries_of (table_in (inner_depth - 1) value.now)))
        (table_flaw (inner_depth - 1) value.now)) result }
{
    let value = TableValue::new(value);
    let put = append_value(out, at, &value);
    report(put)
}

/// Appends a value of an array: nothing, `V`.
#[unsafe(no_mangle)]
pub extern "C" fn feksroum_append_value_void(out: &mut [u8], at: usize) -> PutReport
    ensures { Reports (AppendsValue out.old out.new at void_value None) result }
{
    let value = VoidValue;
    let put = append_value(out, at, &value);
    report(put)
}

/// Appends a value of an array: a byte array, `x`.
#[unsafe(no_mangle)]
pub extern "C" fn feksroum_append_value_bytes(out: &mut [u8], at: usize, value: &[u8]) -> PutReport
    ensures { Reports (AppendsValue out.old out.new at
        (bytes_value byte_array value.now)
        (long_flaw value.now)) result }
{
    let value = ByteArrayValue { bytes: value };
    let put = append_value(out, at, &value);
    report(put)
}
