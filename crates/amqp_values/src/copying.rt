//! Deep copies of values.

ghost use Rattle.std.specs.Prelude.{◌≡◌, IfOk};
ghost use Rattle.amqp_values.specs.Views.{value_of};

use crate::value::{AMQPValue, FieldArray, FieldTable};
use amqp_types::NoMemory;
use std::alloc::Global;

impl AMQPValue {
    /// A deep copy.
    #[cycle(copy)]
    pub fn copy(&self, alloc: Global) -> Result<AMQPValue, NoMemory>
        ensures { IfOk result (λ copied. value_of copied ≡ value_of self.now) }
    {
        match self {
            AMQPValue::Boolean(b) => Ok(AMQPValue::Boolean(*b)),
            AMQPValue::ShortShortInt(n) => Ok(AMQPValue::ShortShortInt(*n)),
            AMQPValue::ShortShortUInt(n) => Ok(AMQPValue::ShortShortUInt(*n)),
            AMQPValue::ShortInt(n) => Ok(AMQPValue::ShortInt(*n)),
            AMQPValue::ShortUInt(n) => Ok(AMQPValue::ShortUInt(*n)),
            AMQPValue::LongInt(n) => Ok(AMQPValue::LongInt(*n)),
            AMQPValue::LongUInt(n) => Ok(AMQPValue::LongUInt(*n)),
            AMQPValue::LongLongInt(n) => Ok(AMQPValue::LongLongInt(*n)),
            AMQPValue::Float(n) => Ok(AMQPValue::Float(*n)),
            AMQPValue::Double(n) => Ok(AMQPValue::Double(*n)),
            AMQPValue::DecimalValue(decimal) => Ok(AMQPValue::DecimalValue(*decimal)),
            AMQPValue::LongString(bytes) => Ok(AMQPValue::LongString(bytes.copy(alloc)?)),
            AMQPValue::FieldArray(array) => Ok(AMQPValue::FieldArray(array.copy(alloc)?)),
            AMQPValue::Timestamp(n) => Ok(AMQPValue::Timestamp(*n)),
            AMQPValue::FieldTable(table) => Ok(AMQPValue::FieldTable(table.copy(alloc)?)),
            AMQPValue::ByteArray(bytes) => Ok(AMQPValue::ByteArray(bytes.copy(alloc)?)),
            AMQPValue::Void => Ok(AMQPValue::Void),
        }
    }
}

impl FieldArray {
    /// A deep copy.
    #[cycle(copy)]
    pub fn copy(&self, alloc: Global) -> Result<FieldArray, NoMemory>
        ensures { IfOk result (λ copied. copied ≡ self.now) }
    {
        let mut copied = FieldArray::new(alloc);
        for value in self.as_slice() {
            copied.push(value.copy(alloc)?)?;
        }
        Ok(copied)
    }
}

impl FieldTable {
    /// A deep copy.
    #[cycle(copy)]
    pub fn copy(&self, alloc: Global) -> Result<FieldTable, NoMemory>
        ensures { IfOk result (λ copied. copied ≡ self.now) }
    {
        let mut copied = FieldTable::new(alloc);
        for (key, value) in self.iter() {
            let key = key.copy(alloc)?;
            let value = value.copy(alloc)?;
            copied.insert(key, value)?;
        }
        Ok(copied)
    }
}
