//! Strings as fields (AMQP 0-9-1, section 4.2.5.3): short ones are tested, of long ones the length.

ghost use Rattle.std.specs.Prelude.{[], ◌∷◌, ◌^◌};
ghost use Rattle.amqp_types.specs.Strings.{short_string_bytes, with_length};
ghost use Rattle.amqp_types.specs.Slots.{text_item, bytes_item, short_string_form};
ghost use Rattle.amqp_types.specs.Slots.{long_string_form, kept_slot};
ghost use Rattle.amqp_put.specs.Fields.{long_spells, text_spells};
ghost use Rattle.amqp_entries.specs.Flaws.{text_flaw, long_flaw};

use crate::slots::ToSlot;
use amqp_canonical::put_few;
use amqp_entries::{PutError, text_size};
use amqp_types::{put_bytes, put_long_uint};

/// The text of a short string, which is tested. In C it is a pointer and a length.
#[repr(C)]
#[derive(Clone, Copy)]
pub struct Text<'a> {
    /// Its bytes.
    pub bytes: &'a [u8],
}

impl<'a> ToSlot for Text<'a> {
    ghost slot = { kept_slot short_string_form };

    ghost items = { λ text. text_item text.bytes.now ∷ [] };

    ghost flaw = { λ text. text_flaw text.bytes.now };

    ghost bytes = { λ text. short_string_bytes text.bytes.now };

    ghost most = { 256 };

    #[inline(always)]
    fn measure(&self) -> Result<usize, PutError> {
        text_size(self.bytes)
    }

    #[inline(always)]
    fn put(&self, buf: &mut [u8], at: usize) -> usize {
        let place = put_bytes(buf, at, &[self.bytes.len() as u8]);
        put_few(buf, place, self.bytes)
    }

    ghost spells = { λ text. text_spells text.bytes.now };
}

/// The bytes of a long string, whose number is tested.
#[derive(Clone, Copy)]
pub struct LongBytes<'a> {
    /// The bytes.
    pub bytes: &'a [u8],
}

impl<'a> ToSlot for LongBytes<'a> {
    ghost slot = { kept_slot long_string_form };

    ghost items = { λ long. bytes_item long.bytes.now ∷ [] };

    ghost flaw = { λ long. long_flaw long.bytes.now };

    ghost bytes = { λ long. with_length long.bytes.now };

    ghost most = { 2 ^ 33 };

    #[inline(always)]
    fn measure(&self) -> Result<usize, PutError> {
        if self.bytes.len() > u32::MAX as usize {
            return Err(PutError::TooLong);
        }
        Ok(4 + self.bytes.len())
    }

    #[inline(always)]
    fn put(&self, buf: &mut [u8], at: usize) -> usize {
        let place = put_long_uint(buf, at, &(self.bytes.len() as u32));
        put_bytes(buf, place, self.bytes)
    }

    ghost spells = { λ long. long_spells long.bytes.now };
}
