//! Short strings that were tested once and are written often.

ghost use Rattle.std.specs.Prelude.{◌≡◌, ◌<◌, true, length};
ghost use Rattle.std.specs.Str.{is_utf8};

use crate::slots::ToSlot;
use amqp_canonical::put_few;
use amqp_entries::{PutError, is_short_text};
use amqp_types::put_bytes;

/// The text of a short string that was tested. It is written without a test.
#[derive(Clone, Copy)]
pub struct ShortText<'a> {
    /// Its bytes.
    pub bytes: &'a [u8],

    ghost few: { length bytes.now < 256 },

    ghost utf8: { is_utf8 bytes.now ≡ true },
}

impl<'a> ShortText<'a> {
    ghost use Rattle.std.specs.Prelude.{None, Some, IfErr, IfOk};
    ghost use Rattle.amqp_entries.specs.Flaws.{text_flaw};

    /// Tests a text: `TooLong` above 255 bytes, and `NotUtf8` where it is not UTF-8.
    pub fn new(bytes: &'a [u8]) -> Result<ShortText<'a>, PutError>
        ensures good { IfOk result (λ _. text_flaw bytes.entry.now ≡ None) }
        ensures kept { IfOk result (λ text. text.bytes.now ≡ bytes.entry.now) }
        ensures refused { IfErr result (λ error. text_flaw bytes.entry.now ≡ Some error) }
    {
        if bytes.len() > 255 {
            return Err(PutError::TooLong);
        }
        if is_short_text(bytes) {
            Ok(ShortText { bytes })
        } else {
            Err(PutError::NotUtf8)
        }
    }
}

impl<'a> ToSlot for ShortText<'a> {
    ghost use Rattle.std.specs.Prelude.{[], ◌∷◌, None};
    ghost use Rattle.amqp_types.specs.Strings.{short_string_bytes};
    ghost use Rattle.amqp_types.specs.Slots.{text_item, short_string_form, kept_slot};
    ghost use Rattle.amqp_put.specs.Fields.{text_spells};

    ghost slot = { kept_slot short_string_form };

    ghost items = { λ text. text_item text.bytes.now ∷ [] };

    ghost flaw = { λ _. None };

    ghost bytes = { λ text. short_string_bytes text.bytes.now };

    ghost most = { 256 };

    #[inline(always)]
    fn measure(&self) -> Result<usize, PutError> {
        Ok(1 + self.bytes.len())
    }

    #[inline(always)]
    fn put(&self, buf: &mut [u8], at: usize) -> usize {
        let place = put_bytes(buf, at, &[self.bytes.len() as u8]);
        put_few(buf, place, self.bytes)
    }

    ghost spells = { λ text. text_spells text.bytes.now };
}
