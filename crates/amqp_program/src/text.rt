//! Reading a whole text.

ghost use Rattle.std.specs.Prelude.{◌≡◌};
ghost use Rattle.amqp_program.specs.Texts.{ReadsText, text_read};

use amqp_stream::Source;
use std::alloc::Global;

/// Why no text was read.
#[derive(Clone, Copy, Debug, PartialEq, Eq)]
pub enum InputError {
    /// A read failed.
    ReadFault {
        /// How many bytes were taken before it.
        after: usize,
    },

    /// More than `LONGEST_TEXT` bytes were taken.
    TooLong,

    /// Out of memory.
    NoMemory,
}

/// The most bytes that a text may have.
pub const LONGEST_TEXT: usize = 16_777_216;

/// Reads all of a source as text.
pub fn read_text<S: Source>(alloc: Global, source: &mut S) -> Result<Vec<u8>, InputError>
    ensures { ReadsText (S.supply source.old) (S.supply source.new) (text_read result) }
{
    let mut text = Vec::new(alloc);
    let mut chunk = [0u8; 4096];
    loop {
        match source.read(&mut chunk) {
            Err(_) => return Err(InputError::ReadFault { after: text.len() }),
            Ok(count) => {
                if count == 0 {
                    return Ok(text);
                }
                if count > LONGEST_TEXT - text.len() {
                    return Err(InputError::TooLong);
                }
                if text.extend_from_slice(&chunk[..count]).is_err() {
                    return Err(InputError::NoMemory);
                }
            }
        }
    }
}
