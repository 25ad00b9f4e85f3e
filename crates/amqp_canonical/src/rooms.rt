//! The put call of which those of canonical bytes are made, and bytes that they put.

ghost use Rattle.std.specs.Prelude.{◌≡◌, ◌≤◌, ◌↔◌, ◌+◌, ◌==◌, [], ◌∷◌, Bool};
ghost use Rattle.std.specs.Prelude.{true, false, length, not, IsTrue};
ghost use Rattle.amqp_types.specs.Booleans.{boolean_bytes};
ghost use Rattle.amqp_canonical.specs.Writes.{HasRoom, PutsIfRoom};

/// Whether a slice has room for what is put.
pub trait Room {
    ghost sure: { Bool };

    /// Whether there is room up to a place of a slice of this length.
    fn is_there(end: usize, len: usize) -> bool
        requires { HasRoom sure end len }
        ensures { IsTrue result ↔ (end ≤ len) };
}

/// There is room for sure, which is not tested.
pub struct Sure {}

/// There may be no room, so it is tested.
pub struct Tested {}

impl Room for Sure {
    ghost sure = { true };

    #[inline(always)]
    fn is_there(_end: usize, _len: usize) -> bool {
        true
    }
}

impl Room for Tested {
    ghost sure = { false };

    #[inline(always)]
    fn is_there(end: usize, len: usize) -> bool {
        end <= len
    }
}

/// Puts bytes at a place of a slice, and returns the place after them. Where there is no room for them, the slice stays
/// as it is: an empty one measures.
#[inline(always)]
#[tactic(auto, unfolding(amqp_types::specs::Writing::written))]
pub fn put_if_room<R: Room>(buf: &mut [u8], at: usize, bytes: &[u8]) -> usize
    requires room { HasRoom R.sure (at + length bytes.now) (length buf.old) }
    ensures { PutsIfRoom buf.old buf.new at bytes.now result }
{
    let end = at + bytes.len();
    if R::is_there(end, buf.len()) {
        buf[at..end].copy_from_slice(bytes);
    }
    end
}

/// The canonical byte of the truth value that was decoded from a byte.
#[inline(always)]
pub(crate) fn truth_byte(byte: u8) -> u8
    ensures { boolean_bytes (not (byte == 0)) ≡ result ∷ [] }
{
    u8::from(byte != 0)
}
