//! What is appended as a value: the trait, and the kinds that are no plain numbers.

ghost use Rattle.std.specs.Prelude.{◌≡◌, ◌≤◌, ◌<◌, ◌+◌, ◌^◌, ◌∷◌, ℕ};
ghost use Rattle.std.specs.Prelude.{List, Option, None, length, IfOk};
ghost use Rattle.amqp_types.specs.Values.{FieldValue, byte_array, bytes_value, double, float};
ghost use Rattle.amqp_types.specs.Values.{long_string, timestamp, unsigned_value, void_value};
ghost use Rattle.amqp_types.specs.ValueBytes.{tagged_bytes};
ghost use Rattle.amqp_types.specs.Strings.{with_length};
ghost use Rattle.amqp_types.specs.Writing.{Puts};
ghost use Rattle.amqp_entries.specs.declared.errors.PutError.{PutError};
ghost use Rattle.amqp_entries.specs.Flaws.{long_flaw, size_or};
ghost use Rattle.amqp_entries.specs.Written.{IsWritten};

use crate::errors::PutError;
use crate::puts::{put_tagged, put_tagged_counted};
use amqp_types::{
    TAG_BYTE_ARRAY, TAG_DOUBLE, TAG_FLOAT, TAG_LONG_STRING, TAG_TIMESTAMP, TAG_VOID, long_held,
    long_long_held, put_bytes,
};

/// What is appended as one value.
pub trait ToValue {
    /// The value.
    ghost value: { Self → FieldValue };

    /// Why it is not put.
    ghost flaw: { Self → Option PutError };

    /// How many bytes it has after its tag and with it, or why it is not put. Nothing is written.
    fn measure(&self) -> Result<usize, PutError>
        ensures size { result ≡ size_or (flaw self.now) (tagged_bytes (value self.now)) }
        ensures bound { IfOk result (λ n. n < 2 ^ 33) }
        ensures written { IfOk result (λ _. IsWritten (value self.now)) };

    /// Puts its tag and its bytes at a place of a slice that has room for them, and returns the place after them.
    fn put(&self, buf: &mut [u8], at: usize) -> usize
        requires fits { flaw self.now ≡ None }
        requires room { at + length (tagged_bytes (value self.now)) ≤ length buf.old }
        ensures { Puts buf.old buf.new at (tagged_bytes (value self.now)) result };
}

/// How many bytes a long string or a byte array has with its tag, or why it is not put.
#[inline(always)]
fn long_size(bytes: &[u8]) -> Result<usize, PutError>
    ensures size { result ≡ size_or (long_flaw bytes.now) (0 ∷ with_length bytes.now) }
    ensures bound { IfOk result (λ n. n < 2 ^ 33) }
{
    if bytes.len() > u32::MAX as usize {
        return Err(PutError::TooLong);
    }
    Ok(5 + bytes.len())
}

/// The bits of an IEEE 754 number of 4 bytes.
#[derive(Clone, Copy)]
pub struct FloatValue {
    /// The bits.
    pub bits: u32,
}

impl ToValue for FloatValue {
    ghost value = { λ number. unsigned_value float number.bits };

    ghost flaw = { λ _. None };

    #[inline(always)]
    fn measure(&self) -> Result<usize, PutError> {
        long_held(self.bits);
        Ok(5)
    }

    #[inline(always)]
    fn put(&self, buf: &mut [u8], at: usize) -> usize {
        put_tagged(buf, at, TAG_FLOAT, &self.bits.to_be_bytes())
    }
}

/// The bits of an IEEE 754 number of 8 bytes.
#[derive(Clone, Copy)]
pub struct DoubleValue {
    /// The bits.
    pub bits: u64,
}

impl ToValue for DoubleValue {
    ghost value = { λ number. unsigned_value double number.bits };

    ghost flaw = { λ _. None };

    #[inline(always)]
    fn measure(&self) -> Result<usize, PutError> {
        long_long_held(self.bits);
        Ok(9)
    }

    #[inline(always)]
    fn put(&self, buf: &mut [u8], at: usize) -> usize {
        put_tagged(buf, at, TAG_DOUBLE, &self.bits.to_be_bytes())
    }
}

/// A time.
#[derive(Clone, Copy)]
pub struct TimestampValue {
    /// Seconds since the beginning of 1970.
    pub seconds: u64,
}

impl ToValue for TimestampValue {
    ghost value = { λ time. unsigned_value timestamp time.seconds };

    ghost flaw = { λ _. None };

    #[inline(always)]
    fn measure(&self) -> Result<usize, PutError> {
        long_long_held(self.seconds);
        Ok(9)
    }

    #[inline(always)]
    fn put(&self, buf: &mut [u8], at: usize) -> usize {
        put_tagged(buf, at, TAG_TIMESTAMP, &self.seconds.to_be_bytes())
    }
}

/// The bytes of a long string.
#[derive(Clone, Copy)]
pub struct LongStringValue<'a> {
    /// The bytes.
    pub bytes: &'a [u8],
}

impl<'a> ToValue for LongStringValue<'a> {
    ghost value = { λ long. bytes_value long_string long.bytes.now };

    ghost flaw = { λ long. long_flaw long.bytes.now };

    #[inline(always)]
    fn measure(&self) -> Result<usize, PutError> {
        long_size(self.bytes)
    }

    #[inline(always)]
    fn put(&self, buf: &mut [u8], at: usize) -> usize {
        put_tagged_counted(buf, at, TAG_LONG_STRING, self.bytes)
    }
}

/// A byte array.
#[derive(Clone, Copy)]
pub struct ByteArrayValue<'a> {
    /// The bytes.
    pub bytes: &'a [u8],
}

impl<'a> ToValue for ByteArrayValue<'a> {
    ghost value = { λ long. bytes_value byte_array long.bytes.now };

    ghost flaw = { λ long. long_flaw long.bytes.now };

    #[inline(always)]
    fn measure(&self) -> Result<usize, PutError> {
        long_size(self.bytes)
    }

    #[inline(always)]
    fn put(&self, buf: &mut [u8], at: usize) -> usize {
        put_tagged_counted(buf, at, TAG_BYTE_ARRAY, self.bytes)
    }
}

/// No value.
#[derive(Clone, Copy)]
pub struct VoidValue;

impl ToValue for VoidValue {
    ghost value = { λ _. void_value };

    ghost flaw = { λ _. None };

    #[inline(always)]
    fn measure(&self) -> Result<usize, PutError> {
        Ok(1)
    }

    #[inline(always)]
    fn put(&self, buf: &mut [u8], at: usize) -> usize {
        put_bytes(buf, at, &[TAG_VOID])
    }
}
