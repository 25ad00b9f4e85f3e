//! The content of a table that is a field.

ghost use Rattle.std.specs.Prelude.{◌≡◌, ◌≤◌, ◌<◌, ◌+◌, ◌^◌, None, length, IfOk};
ghost use Rattle.amqp_types.specs.Constants.{inner_depth};
ghost use Rattle.amqp_types.specs.ValueBytes.{table_bytes};
ghost use Rattle.amqp_types.specs.Writing.{Puts};
ghost use Rattle.amqp_entries.specs.Contents.{table_flaw, table_in};
ghost use Rattle.amqp_entries.specs.Flaws.{size_or};
ghost use Rattle.amqp_entries.specs.Found.{IsFoundTable};

use crate::contents::{Found, find_table, put_table_content, table_refusal};
use crate::errors::PutError;
use amqp_types::INNER_DEPTH;

/// The content of a table that is a field of a method or a property. It is judged once, and may then be put often.
#[derive(Clone, Copy)]
pub struct TableContent<'a> {
    /// What fills the table, without the 4 bytes of its length, in any encoding.
    pub content: &'a [u8],

    /// What it was found to be.
    found: Found,

    ghost was_found: { IsFoundTable inner_depth content.now found },
}

impl<'a> TableContent<'a> {
    /// Judges what fills a table.
    #[inline(always)]
    pub fn new(content: &'a [u8]) -> TableContent<'a>
        ensures { result.content.now ≡ content.entry.now }
    {
        TableContent {
            content,
            found: find_table(content, INNER_DEPTH),
        }
    }

    /// How many bytes the table has, with its length, or why it is not put.
    #[inline(always)]
    pub fn measure(&self) -> Result<usize, PutError>
        ensures size { result ≡ size_or (table_flaw inner_depth self.now.content.now)
            (table_bytes (table_in inner_depth self.now.content.now)) }
        ensures bound { IfOk result (λ n. n < 2 ^ 33) }
    {
        if self.found.size <= u32::MAX as usize {
            return Ok(4 + self.found.size);
        }
        match table_refusal(self.content, INNER_DEPTH) {
            Some(flaw) => Err(flaw),
            None => Ok(4 + self.found.size),
        }
    }

    /// Puts the table, its length first, at a place of a slice that has room for it, and returns the place after it.
    #[inline(always)]
    pub fn put(&self, buf: &mut [u8], at: usize) -> usize
        requires fits { table_flaw inner_depth self.now.content.now ≡ None }
        requires room { at + length (table_bytes (table_in inner_depth self.now.content.now))
            ≤ length buf.old }
        ensures { Puts buf.old buf.new at
            (table_bytes (table_in inner_depth self.now.content.now)) result }
    {
        put_table_content(buf, at, self.content, self.found, INNER_DEPTH)
    }
}
