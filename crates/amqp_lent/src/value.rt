//! Values, arrays and tables that are borrowed from bytes that were decoded before.

ghost use Rattle.std.specs.Prelude.{◌≡◌, option_map, ⊤};
ghost use Rattle.amqp_types.specs.Settling.{value_at};
ghost use Rattle.amqp_lent.specs.Finding.{FindsAfter};

use crate::reading::first_item;
use crate::table::{entry_after, value_of_key};
use amqp_types::{
    Boolean, DecimalValue, Double, Float, LongInt, LongLongInt, LongUInt, ShortInt, ShortShortInt,
    ShortShortUInt, ShortUInt, Timestamp,
};
use std::alloc::AllocError;
use std::marker::Model;

/// A value in a table or an array (AMQP 0-9-1, section 4.2.5.5). Strings, arrays and tables are borrowed.
#[derive(Debug, Drop)]
pub enum LentValue<'a> {
    /// A truth value.
    Boolean(Boolean),

    /// A signed number of 1 byte.
    ShortShortInt(ShortShortInt),

    /// An unsigned number of 1 byte.
    ShortShortUInt(ShortShortUInt),

    /// A signed number of 2 bytes.
    ShortInt(ShortInt),

    /// An unsigned number of 2 bytes.
    ShortUInt(ShortUInt),

    /// A signed number of 4 bytes.
    LongInt(LongInt),

    /// An unsigned number of 4 bytes.
    LongUInt(LongUInt),

    /// A signed number of 8 bytes.
    LongLongInt(LongLongInt),

    /// The bits of a number of 4 bytes with a fraction.
    Float(Float),

    /// The bits of a number of 8 bytes with a fraction.
    Double(Double),

    /// A number with a scale.
    DecimalValue(DecimalValue),

    /// A long string.
    LongString(&'a [u8]),

    /// An array.
    FieldArray(LentArray<'a>),

    /// A time, in seconds since 1970 began in UTC (section 4.2.5.4).
    Timestamp(Timestamp),

    /// A table.
    FieldTable(LentTable<'a>),

    /// A list of bytes.
    ByteArray(&'a [u8]),

    /// Nothing.
    Void,
}

/// A list of values, which stand one after another in borrowed bytes. In contracts it is the list.
#[derive(Debug, Drop)]
pub struct LentArray<'a> {
    pub(crate) content: &'a [u8],

    /// How deep tables and arrays may nest in the values.
    pub(crate) depth_left: usize,
}

/// Keys and their values, which stand one after another in borrowed bytes in any order. In contracts it is the table:
/// each key once, in ascending order, with the last of its values.
#[derive(Debug, Drop)]
pub struct LentTable<'a> {
    pub(crate) content: &'a [u8],

    /// How deep tables and arrays may nest in the values.
    pub(crate) depth_left: usize,
}

/// The values of an array that are still to come.
#[derive(Debug, Drop)]
pub struct LentItems<'a> {
    content: &'a [u8],

    /// How deep tables and arrays may nest in the values.
    depth_left: usize,
}

impl<'a> Model for LentArray<'a> {
    ghost use Rattle.std.specs.Prelude.{List};
    ghost use Rattle.std.specs.Coded.{coded_list};
    ghost use Rattle.amqp_types.specs.Values.{FieldValue};
    ghost use Rattle.amqp_types.specs.ValueCodes.{value_code};
    ghost use Rattle.amqp_types.specs.ValueJudging.{filled, judge_value};
    ghost use Rattle.amqp_canonical.specs.Writes.{IsFilled, items_of};

    ghost Value = { List FieldValue };

    ghost coded = { coded_list value_code };

    ghost view = { λ array. items_of (filled (judge_value array.depth_left) 0 array.content.now) };

    ghost invariant = { λ array.
        IsFilled (filled (judge_value array.depth_left) 0 array.content.now) };
}

impl<'a> Model for LentTable<'a> {
    ghost use Rattle.std.specs.Prelude.{List};
    ghost use Rattle.std.specs.Coded.{coded_list, coded×, coded_ℕ};
    ghost use Rattle.amqp_types.specs.Settling.{settled};
    ghost use Rattle.amqp_types.specs.Values.{Entry};
    ghost use Rattle.amqp_types.specs.ValueCodes.{value_code};
    ghost use Rattle.amqp_canonical.specs.Marks.{AreEntries, entries_in};

    ghost Value = { List Entry };

    ghost coded = { coded_list (coded× (coded_list coded_ℕ) value_code) };

    ghost view = { λ table. settled (entries_in table.depth_left table.content.now) };

    ghost invariant = { λ table. AreEntries table.depth_left table.content.now };
}

impl<'a> Model for LentItems<'a> {
    ghost use Rattle.std.specs.Prelude.{List};
    ghost use Rattle.std.specs.Coded.{coded_list};
    ghost use Rattle.amqp_types.specs.Values.{FieldValue};
    ghost use Rattle.amqp_types.specs.ValueCodes.{value_code};
    ghost use Rattle.amqp_types.specs.ValueJudging.{filled, judge_value};
    ghost use Rattle.amqp_canonical.specs.Writes.{IsFilled, items_of};

    ghost Value = { List FieldValue };

    ghost coded = { coded_list value_code };

    ghost view = { λ items. items_of (filled (judge_value items.depth_left) 0 items.content.now) };

    ghost invariant = { λ items.
        IsFilled (filled (judge_value items.depth_left) 0 items.content.now) };
}

impl<'a> Clone for LentArray<'a> {
    ghost is_clone = { λ array copied. copied ≡ array };

    ghost is_infallible = { λ _. ⊤ };

    fn clone(&self) -> Result<LentArray<'a>, AllocError> {
        Ok(LentArray {
            content: self.content,
            depth_left: self.depth_left,
        })
    }
}

impl<'a> Clone for LentTable<'a> {
    ghost is_clone = { λ table copied. copied ≡ table };

    ghost is_infallible = { λ _. ⊤ };

    fn clone(&self) -> Result<LentTable<'a>, AllocError> {
        Ok(LentTable {
            content: self.content,
            depth_left: self.depth_left,
        })
    }
}

impl<'a> Clone for LentValue<'a> {
    ghost is_clone = { λ value copied. copied ≡ value };

    ghost is_infallible = { λ _. ⊤ };

    fn clone(&self) -> Result<LentValue<'a>, AllocError> {
        Ok(match self {
            LentValue::Boolean(value) => LentValue::Boolean(*value),
            LentValue::ShortShortInt(value) => LentValue::ShortShortInt(*value),
            LentValue::ShortShortUInt(value) => LentValue::ShortShortUInt(*value),
            LentValue::ShortInt(value) => LentValue::ShortInt(*value),
            LentValue::ShortUInt(value) => LentValue::ShortUInt(*value),
            LentValue::LongInt(value) => LentValue::LongInt(*value),
            LentValue::LongUInt(value) => LentValue::LongUInt(*value),
            LentValue::LongLongInt(value) => LentValue::LongLongInt(*value),
            LentValue::Float(value) => LentValue::Float(*value),
            LentValue::Double(value) => LentValue::Double(*value),
            LentValue::DecimalValue(value) => LentValue::DecimalValue(*value),
            LentValue::LongString(value) => LentValue::LongString(value),
            LentValue::FieldArray(array) => LentValue::FieldArray(array.clone()?),
            LentValue::Timestamp(value) => LentValue::Timestamp(*value),
            LentValue::FieldTable(table) => LentValue::FieldTable(table.clone()?),
            LentValue::ByteArray(value) => LentValue::ByteArray(value),
            LentValue::Void => LentValue::Void,
        })
    }
}

impl<'a> LentTable<'a> {
    ghost use Rattle.amqp_lent.specs.Views.{value_of, entry_of};

    /// The value of a key, if the table holds it. The entries are walked over once.
    pub fn get(&self, key: &str) -> Option<LentValue<'a>>
        ensures { option_map value_of result ≡ value_at key.now self.now }
    {
        value_of_key(self.content, self.depth_left, key.as_bytes())
    }

    /// The entry with the least key above a given one, or with the least of all, if there is one. The entries are
    /// walked over once.
    pub fn next_after(&self, key: Option<&str>) -> Option<(&'a str, LentValue<'a>)>
        ensures { FindsAfter (option_map (λ text. text.now) key.entry) self.now
            (option_map entry_of result) }
    {
        let last = match key {
            Some(text) => Some(text.as_bytes()),
            None => None,
        };
        entry_after(self.content, self.depth_left, last)
    }
}

impl<'a> LentArray<'a> {
    /// The values, one after another.
    pub fn items(&self) -> LentItems<'a>
        ensures { result ≡ self.now }
    {
        LentItems {
            content: self.content,
            depth_left: self.depth_left,
        }
    }
}

impl<'a> Iterator for LentItems<'a> {
    ghost use Rattle.std.specs.Iterator.{YieldsFirstBy, item_count};
    ghost use Rattle.amqp_lent.specs.Views.{value_of};

    type Item = LentValue<'a>;

    ghost next_gives = { YieldsFirstBy value_of (λ rest. rest) };

    ghost remaining = { item_count (λ rest. rest) };

    fn next(&mut self) -> Option<LentValue<'a>> {
        let (item, rest) = first_item(self.content, self.depth_left)?;
        self.content = rest;
        Some(item)
    }
}
