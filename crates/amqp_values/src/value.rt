//! Values, arrays and tables, as programs hold them.

ghost use Rattle.std.specs.Prelude.{◌≡◌, ◌↔◌, ◌++◌, ◌∷◌, [], length};
ghost use Rattle.std.specs.Prelude.{map, IsTrue, IfOk, OnOk, OnErr};
ghost use Rattle.std.specs.Option.{option_map};
ghost use Rattle.std.specs.Ordering.{nat_cmp};
ghost use Rattle.std.specs.Cmp.Lexicographic.{slice_cmp};
ghost use Rattle.std.specs.BTreeMap.{insert_entry};
ghost use Rattle.amqp_types.specs.Settling.{IsRising, settled, value_at};

pub use amqp_types::DecimalValue;
use amqp_types::{
    Boolean, ByteArray, Double, Float, LongInt, LongLongInt, LongString, LongUInt, NoMemory,
    ShortInt, ShortShortInt, ShortShortUInt, ShortString, ShortUInt, Timestamp,
};
use std::alloc::Global;
use std::collections::{BTreeMap, btree_map};
use std::marker::Model;

/// A value in a table or an array (AMQP 0-9-1, section 4.2.5.5).
#[cycle(value)]
#[derive(Debug, Drop)]
pub enum AMQPValue {
    /// A truth value.
    Boolean(Boolean),

    /// A signed number of 1 byte.
    ShortShortInt(ShortShortInt),

    /// An unsigned number of 1 byte.
    ShortShortUInt(ShortShortUInt),

    /// A signed number of 2 bytes.
    ShortInt(ShortInt),

    /// An unsigned number of 2 bytes.
    ShortUInt(ShortUInt),

    /// A signed number of 4 bytes.
    LongInt(LongInt),

    /// An unsigned number of 4 bytes.
    LongUInt(LongUInt),

    /// A signed number of 8 bytes.
    LongLongInt(LongLongInt),

    /// The bits of a number of 4 bytes with a fraction.
    Float(Float),

    /// The bits of a number of 8 bytes with a fraction.
    Double(Double),

    /// A number with a scale.
    DecimalValue(DecimalValue),

    /// A long string.
    LongString(LongString),

    /// An array.
    FieldArray(FieldArray),

    /// A time, in seconds since 1970 began in UTC (section 4.2.5.4).
    Timestamp(Timestamp),

    /// A table.
    FieldTable(FieldTable),

    /// A list of bytes.
    ByteArray(ByteArray),

    /// Nothing.
    Void,
}

/// A list of values.
#[cycle(value)]
#[derive(Debug, Drop)]
pub struct FieldArray {
    values: Vec<AMQPValue>,
}

/// Keys and their values, in ascending order of the keys' bytes.
#[cycle(value)]
#[derive(Debug, Drop)]
pub struct FieldTable {
    entries: BTreeMap<ShortString, AMQPValue>,
}

impl Model for FieldArray {
    ghost use Rattle.std.specs.Prelude.{List, map};
    ghost use Rattle.std.specs.Coded.{coded_list};
    ghost use Rattle.std.proofs.Common.{arith};
    ghost use Rattle.amqp_types.specs.Values.{FieldValue, values_of, values_weight};
    ghost use Rattle.amqp_types.specs.ValueCodes.{value_code};

    ghost Value = { List FieldValue };

    ghost coded = { coded_list value_code };

    ghost use Rattle.amqp_values.specs.Views.{value_of};

    ghost view = { λ array. map value_of array.values.items };

    ghost size = { λ vs. values_weight (values_of vs) };

    ghost use Rattle.amqp_values.specs.Falls.{most_values};

    ghost size_decreases = { λ array h. Prim.omega (arith, most_values array.values.items) };
}

impl Model for FieldTable {
    ghost use Rattle.std.specs.Prelude.{List, ℕ, map};
    ghost use Rattle.std.specs.Ordering.{nat_cmp};
    ghost use Rattle.std.specs.Cmp.Lexicographic.{slice_cmp};
    ghost use Rattle.std.specs.Map.{keys_of};
    ghost use Rattle.std.specs.List.Sorted.{IsStrictlySortedBy};
    ghost use Rattle.std.specs.Coded.{coded_list, coded×, coded_ℕ};
    ghost use Rattle.std.proofs.Common.{arith};
    ghost use Rattle.amqp_types.specs.Values.{Entry, entries_of, entries_weight};
    ghost use Rattle.amqp_types.specs.ValueCodes.{value_code};

    ghost Value = { List Entry };

    ghost coded = { coded_list (coded× (coded_list coded_ℕ) value_code) };

    ghost use Rattle.amqp_values.specs.Views.{entry_of};

    ghost view = { λ table. map entry_of table.entries.entries };

    ghost invariant = { λ table.
        IsStrictlySortedBy (slice_cmp nat_cmp) (keys_of table.entries.entries) };

    ghost size = { λ es. entries_weight (entries_of es) };

    ghost use Rattle.amqp_values.specs.Falls.{most_entries};

    ghost size_decreases = { λ table h. Prim.omega (arith, most_entries table.entries.entries) };
}

impl FieldArray {
    ghost use Rattle.amqp_values.specs.Views.{value_of};

    /// An array of no values. No memory is taken.
    pub fn new(alloc: Global) -> FieldArray
        ensures { result ≡ [] }
    {
        FieldArray {
            values: Vec::new(alloc),
        }
    }

    /// Appends a value, which is dropped where memory runs out.
    pub fn push(&mut self, value: AMQPValue) -> Result<(), NoMemory>
        ensures ok { OnOk result (self.new ≡ self.old ++ value_of value ∷ []) }
        ensures err { OnErr result (self.new ≡ self.old) }
    {
        self.values.push(value)?;
        Ok(())
    }

    /// The number of values.
    pub fn len(&self) -> usize
        ensures { result ≡ length self.now }
    {
        self.values.len()
    }

    /// Whether there are no values.
    pub fn is_empty(&self) -> bool
        ensures { IsTrue result ↔ (self.now ≡ []) }
    {
        self.values.is_empty()
    }

    /// The values, in their order.
    pub fn as_slice(&self) -> &[AMQPValue]
        ensures { map value_of result.now ≡ self.now }
    {
        self.values.as_slice()
    }
}

impl FieldTable {
    ghost use Rattle.amqp_values.specs.Views.{value_of, entry_of};

    /// A table of no entries. No memory is taken.
    pub fn new(alloc: Global) -> FieldTable
        ensures { result ≡ [] }
    {
        FieldTable {
            entries: BTreeMap::new(alloc),
        }
    }

    /// The table of these entries. Of duplicate keys the last one wins.
    pub fn from_entries(
        alloc: Global,
        entries: Vec<(ShortString, AMQPValue)>,
    ) -> Result<FieldTable, NoMemory>
        ensures { IfOk result (λ table. table ≡ settled (map entry_of entries.items)) }
    {
        let entries: BTreeMap<ShortString, AMQPValue> = entries.into_iter().collect(alloc)?;
        Ok(FieldTable { entries })
    }

    /// Makes this the value of the key. Key and value are dropped where memory runs out.
    pub fn insert(&mut self, key: ShortString, value: AMQPValue) -> Result<(), NoMemory>
        ensures ok { OnOk result
            (self.new ≡ insert_entry (slice_cmp nat_cmp) self.old key (value_of value)) }
        ensures err { OnErr result (self.new ≡ self.old) }
    {
        self.entries.insert(key, value)?;
        Ok(())
    }

    /// The number of entries.
    pub fn len(&self) -> usize
        ensures { result ≡ length self.now }
    {
        self.entries.len()
    }

    /// Whether there are no entries.
    pub fn is_empty(&self) -> bool
        ensures { IsTrue result ↔ (self.now ≡ []) }
    {
        self.entries.is_empty()
    }

    /// The value of a key, if the table holds it.
    pub fn get(&self, key: &str) -> Option<&AMQPValue>
        ensures { option_map (λ value. value_of value.now) result ≡ value_at key.now self.now }
    {
        for (held, value) in self.entries.iter() {
            if key == held.as_str() {
                return Some(value);
            }
        }
        None
    }

    /// The entries in ascending order of their keys' bytes.
    pub fn iter(&self) -> FieldTableIter<'_>
        ensures entries { result ≡ self.now }
        ensures rising { IsRising self.now }
    {
        FieldTableIter {
            entries: self.entries.iter(),
        }
    }
}

/// Appends an entry, which is dropped where memory runs out.
pub(crate) fn push_entry(
    entries: &mut Vec<(ShortString, AMQPValue)>,
    entry: (ShortString, AMQPValue),
) -> Result<(), NoMemory>
    ensures { OnOk result (entries.new.items ≡ entries.old.items ++ entry ∷ []) }
{
    entries.push(entry)?;
    Ok(())
}

/// The entries of a table that are still to come.
#[derive(Drop)]
pub struct FieldTableIter<'a> {
    entries: btree_map::Iter<'a, ShortString, AMQPValue>,
}

impl<'a> Model for FieldTableIter<'a> {
    ghost use Rattle.std.specs.Prelude.{List, ℕ, map};
    ghost use Rattle.std.specs.Coded.{coded_list, coded×, coded_ℕ};
    ghost use Rattle.amqp_types.specs.Values.{Entry};
    ghost use Rattle.amqp_types.specs.ValueCodes.{value_code};

    ghost Value = { List Entry };

    ghost coded = { coded_list (coded× (coded_list coded_ℕ) value_code) };

    ghost use Rattle.amqp_values.specs.Views.{entry_of};

    ghost view = { λ iter. map entry_of iter.entries };
}

impl<'a> Iterator for FieldTableIter<'a> {
    ghost use Rattle.std.specs.Iterator.{YieldsFirstBy, item_count};
    ghost use Rattle.amqp_values.specs.Views.{value_of};

    type Item = (&'a ShortString, &'a AMQPValue);

    ghost next_gives = { YieldsFirstBy (λ item. (item.0.now, value_of item.1.now)) (λ rest. rest) };

    ghost remaining = { item_count (λ rest. rest) };

    fn next(&mut self) -> Option<(&'a ShortString, &'a AMQPValue)> {
        self.entries.next()
    }
}

impl<'a> ExactSizeIterator for FieldTableIter<'a> {
    fn len(&self) -> usize {
        self.entries.len()
    }
}
