//! Headers that are not set: a table that needs no test, and is not put.

ghost use Rattle.std.specs.Prelude.{[], ◌∷◌, None};
ghost use Rattle.amqp_types.specs.Numbers.{bytes4, number_bytes};
ghost use Rattle.amqp_types.specs.Slots.{entries_item, kept_slot, table_form};
ghost use Rattle.amqp_put.specs.Properties.{no_entries_alone};
ghost use Rattle.amqp_c_put.specs.Headers.{no_entries_spell};

use amqp_put::{PutError, ToItem, ToSlot};
use amqp_types::put_bytes;

/// A table with no entries.
#[derive(Clone, Copy)]
pub(crate) struct NoHeaders;

impl ToSlot for NoHeaders {
    ghost slot = { kept_slot table_form };

    ghost items = { λ _. entries_item [] ∷ [] };

    ghost flaw = { λ _. None };

    ghost bytes = { λ _. number_bytes bytes4 0 };

    ghost most = { 8 };

    #[inline(always)]
    fn measure(&self) -> Result<usize, PutError> {
        Ok(4)
    }

    #[inline(always)]
    fn put(&self, buf: &mut [u8], at: usize) -> usize {
        put_bytes(buf, at, &[0, 0, 0, 0])
    }

    ghost spells = { λ _. no_entries_spell };
}

impl ToItem for NoHeaders {
    ghost form = { table_form };

    ghost item = { λ _. entries_item [] };

    ghost alone = { λ _. no_entries_alone };
}
