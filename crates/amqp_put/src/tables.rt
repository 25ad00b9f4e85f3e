//! Tables as fields, by what fills them.

ghost use Rattle.std.specs.Prelude.{[], ◌∷◌, ◌^◌};
ghost use Rattle.amqp_types.specs.Constants.{inner_depth};
ghost use Rattle.amqp_types.specs.Slots.{entries_item, table_form, kept_slot};
ghost use Rattle.amqp_types.specs.ValueBytes.{table_bytes};
ghost use Rattle.amqp_entries.specs.Contents.{table_flaw, table_in};
ghost use Rattle.amqp_put.specs.Tables.{table_spells};

use crate::slots::ToSlot;
use amqp_entries::{PutError, TableContent};

impl<'a> ToSlot for TableContent<'a> {
    ghost slot = { kept_slot table_form };

    ghost items = { λ table. entries_item (table_in inner_depth table.content.now) ∷ [] };

    ghost flaw = { λ table. table_flaw inner_depth table.content.now };

    ghost bytes = { λ table. table_bytes (table_in inner_depth table.content.now) };

    ghost most = { 2 ^ 33 };

    #[inline(always)]
    fn measure(&self) -> Result<usize, PutError> {
        TableContent::measure(self)
    }

    #[inline(always)]
    fn put(&self, buf: &mut [u8], at: usize) -> usize {
        TableContent::put(self, buf, at)
    }

    ghost spells = { λ table. table_spells (table_in inner_depth table.content.now) };
}
