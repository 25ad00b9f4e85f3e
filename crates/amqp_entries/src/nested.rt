//! Tables and arrays that are values, by their contents.

ghost use Rattle.std.specs.Prelude.{◌≡◌, ◌-◌};
ghost use Rattle.amqp_types.specs.Constants.{inner_depth};
ghost use Rattle.amqp_types.specs.Values.{array_value, entries_of, table_value, values_of};
ghost use Rattle.amqp_entries.specs.Contents.{array_flaw, array_in, table_flaw, table_in};
ghost use Rattle.amqp_entries.specs.Found.{IsFoundArray, IsFoundTable};

use crate::contents::{
    Found, array_refusal, find_array, find_table, put_array_content, put_table_content,
    table_refusal,
};
use crate::errors::PutError;
use crate::values::ToValue;
use amqp_types::{INNER_DEPTH, TAG_FIELD_ARRAY, TAG_FIELD_TABLE, are_bytes, put_bytes};

/// How many levels may nest in the values of a table or an array that is itself a value.
const DEPTH_LEFT: usize = INNER_DEPTH - 1;

/// A table that is a value, by what fills it. It is judged once, and may then be appended often.
#[derive(Clone, Copy)]
pub struct TableValue<'a> {
    /// What fills the table, without the 4 bytes of its length, in any encoding.
    pub content: &'a [u8],

    /// What it was found to be.
    found: Found,

    ghost was_found: { IsFoundTable (inner_depth - 1) content.now found },
}

impl<'a> TableValue<'a> {
    /// Judges what fills a table.
    #[inline(always)]
    pub fn new(content: &'a [u8]) -> TableValue<'a>
        ensures { result.content.now ≡ content.entry.now }
    {
        TableValue {
            content,
            found: find_table(content, DEPTH_LEFT),
        }
    }
}

impl<'a> ToValue for TableValue<'a> {
    ghost value = { λ table. table_value
        (entries_of (table_in (inner_depth - 1) table.content.now)) };

    ghost flaw = { λ table. table_flaw (inner_depth - 1) table.content.now };

    #[inline(always)]
    fn measure(&self) -> Result<usize, PutError> {
        are_bytes(self.content);
        if self.found.size <= u32::MAX as usize {
            return Ok(5 + self.found.size);
        }
        match table_refusal(self.content, DEPTH_LEFT) {
            Some(flaw) => Err(flaw),
            None => Ok(5 + self.found.size),
        }
    }

    #[inline(always)]
    fn put(&self, buf: &mut [u8], at: usize) -> usize {
        let place = put_bytes(buf, at, &[TAG_FIELD_TABLE]);
        put_table_content(buf, place, self.content, self.found, DEPTH_LEFT)
    }
}

/// An array that is a value, by what fills it. It is judged once, and may then be appended often.
#[derive(Clone, Copy)]
pub struct ArrayValue<'a> {
    /// What fills the array, without the 4 bytes of its length, in any encoding.
    pub content: &'a [u8],

    /// What it was found to be.
    found: Found,

    ghost was_found: { IsFoundArray (inner_depth - 1) content.now found },
}

impl<'a> ArrayValue<'a> {
    /// Judges what fills an array.
    #[inline(always)]
    pub fn new(content: &'a [u8]) -> ArrayValue<'a>
        ensures { result.content.now ≡ content.entry.now }
    {
        ArrayValue {
            content,
            found: find_array(content, DEPTH_LEFT),
        }
    }
}

impl<'a> ToValue for ArrayValue<'a> {
    ghost value = { λ array. array_value
        (values_of (array_in (inner_depth - 1) array.content.now)) };

    ghost flaw = { λ array. array_flaw (inner_depth - 1) array.content.now };

    #[inline(always)]
    fn measure(&self) -> Result<usize, PutError> {
        are_bytes(self.content);
        if self.found.size <= u32::MAX as usize {
            return Ok(5 + self.found.size);
        }
        match array_refusal(self.content, DEPTH_LEFT) {
            Some(flaw) => Err(flaw),
            None => Ok(5 + self.found.size),
        }
    }

    #[inline(always)]
    fn put(&self, buf: &mut [u8], at: usize) -> usize {
        let place = put_bytes(buf, at, &[TAG_FIELD_ARRAY]);
        put_array_content(buf, place, self.content, self.found, DEPTH_LEFT)
    }
}
