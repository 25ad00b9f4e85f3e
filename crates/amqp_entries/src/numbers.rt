//! Truth values and numbers, which are appended as they are.

ghost use Rattle.std.specs.Prelude.{None};
ghost use Rattle.amqp_types.specs.Values.{boolean_value, decimal_value, long_int, long_long_int};
ghost use Rattle.amqp_types.specs.Values.{long_uint, short_int, short_short_int, short_short_uint};
ghost use Rattle.amqp_types.specs.Values.{short_uint, signed_value, unsigned_value};

use crate::errors::PutError;
use crate::puts::put_tagged;
use crate::values::ToValue;
use amqp_types::{
    DecimalValue, TAG_BOOLEAN, TAG_DECIMAL_VALUE, TAG_LONG_INT, TAG_LONG_LONG_INT, TAG_LONG_UINT,
    TAG_SHORT_INT, TAG_SHORT_SHORT_INT, TAG_SHORT_SHORT_UINT, TAG_SHORT_UINT, long_held,
    octet_held, put_bytes, put_decimal_value,
};

impl ToValue for bool {
    ghost value = { λ b. boolean_value b };

    ghost flaw = { λ _. None };

    #[inline(always)]
    fn measure(&self) -> Result<usize, PutError> {
        Ok(2)
    }

    #[inline(always)]
    fn put(&self, buf: &mut [u8], at: usize) -> usize {
        put_tagged(buf, at, TAG_BOOLEAN, &[u8::from(*self)])
    }
}

impl ToValue for i8 {
    ghost value = { λ n. signed_value short_short_int n };

    ghost flaw = { λ _. None };

    #[inline(always)]
    fn measure(&self) -> Result<usize, PutError> {
        let _value = *self;
        Ok(2)
    }

    #[inline(always)]
    fn put(&self, buf: &mut [u8], at: usize) -> usize {
        put_tagged(buf, at, TAG_SHORT_SHORT_INT, &self.to_be_bytes())
    }
}

impl ToValue for u8 {
    ghost value = { λ n. unsigned_value short_short_uint n };

    ghost flaw = { λ _. None };

    #[inline(always)]
    fn measure(&self) -> Result<usize, PutError> {
        let _value = *self;
        Ok(2)
    }

    #[inline(always)]
    fn put(&self, buf: &mut [u8], at: usize) -> usize {
        put_tagged(buf, at, TAG_SHORT_SHORT_UINT, &self.to_be_bytes())
    }
}

impl ToValue for i16 {
    ghost value = { λ n. signed_value short_int n };

    ghost flaw = { λ _. None };

    #[inline(always)]
    fn measure(&self) -> Result<usize, PutError> {
        let _value = *self;
        Ok(3)
    }

    #[inline(always)]
    fn put(&self, buf: &mut [u8], at: usize) -> usize {
        put_tagged(buf, at, TAG_SHORT_INT, &self.to_be_bytes())
    }
}

impl ToValue for u16 {
    ghost value = { λ n. unsigned_value short_uint n };

    ghost flaw = { λ _. None };

    #[inline(always)]
    fn measure(&self) -> Result<usize, PutError> {
        let _value = *self;
        Ok(3)
    }

    #[inline(always)]
    fn put(&self, buf: &mut [u8], at: usize) -> usize {
        put_tagged(buf, at, TAG_SHORT_UINT, &self.to_be_bytes())
    }
}

impl ToValue for i32 {
    ghost value = { λ n. signed_value long_int n };

    ghost flaw = { λ _. None };

    #[inline(always)]
    fn measure(&self) -> Result<usize, PutError> {
        let _value = *self;
        Ok(5)
    }

    #[inline(always)]
    fn put(&self, buf: &mut [u8], at: usize) -> usize {
        put_tagged(buf, at, TAG_LONG_INT, &self.to_be_bytes())
    }
}

impl ToValue for u32 {
    ghost value = { λ n. unsigned_value long_uint n };

    ghost flaw = { λ _. None };

    #[inline(always)]
    fn measure(&self) -> Result<usize, PutError> {
        let _value = *self;
        Ok(5)
    }

    #[inline(always)]
    fn put(&self, buf: &mut [u8], at: usize) -> usize {
        put_tagged(buf, at, TAG_LONG_UINT, &self.to_be_bytes())
    }
}

impl ToValue for i64 {
    ghost value = { λ n. signed_value long_long_int n };

    ghost flaw = { λ _. None };

    #[inline(always)]
    fn measure(&self) -> Result<usize, PutError> {
        let _value = *self;
        Ok(9)
    }

    #[inline(always)]
    fn put(&self, buf: &mut [u8], at: usize) -> usize {
        put_tagged(buf, at, TAG_LONG_LONG_INT, &self.to_be_bytes())
    }
}

impl ToValue for DecimalValue {
    ghost value = { λ decimal. decimal_value decimal.scale decimal.value };

    ghost flaw = { λ _. None };

    #[inline(always)]
    fn measure(&self) -> Result<usize, PutError> {
        octet_held(self.scale);
        long_held(self.value);
        Ok(6)
    }

    #[inline(always)]
    fn put(&self, buf: &mut [u8], at: usize) -> usize {
        let place = put_bytes(buf, at, &[TAG_DECIMAL_VALUE]);
        put_decimal_value(buf, place, self)
    }
}
