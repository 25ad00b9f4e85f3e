//! What callers need that write bodies from where they lie: the limit on a payload, and what comes before one.

ghost use Rattle.std.specs.Prelude.{◌≡◌, ◌+◌, ◌++◌, ◌<◌, ◌≤◌, ℕ, List, [], ◌∷◌, length};
ghost use Rattle.amqp_types.specs.Constants.{body_byte, end_byte};
ghost use Rattle.amqp_wire.specs.Canonical.{canon};
ghost use Rattle.amqp_wire.specs.Frames.{Body};
ghost use Rattle.amqp_wire.specs.Spelling.{head};
ghost use Rattle.amqp_c.specs.Statuses.{WritesFront};

use amqp_types::{FRAME_BODY, put_bytes};
use amqp_wire::frame_head;

/// The longest payload of a frame of at most `frame_max` bytes, as the two ends of a connection agree on it: 8 bytes
/// are around a payload. 0 is no limit, and gives what four bytes can say.
#[unsafe(no_mangle)]
pub extern "C" fn feksroum_max_payload(frame_max: u32) -> u32
    ensures no_limit { frame_max ≡ 0 → result ≡ 4294967295 }
    ensures fits { 8 ≤ frame_max → result + 8 ≡ frame_max }
    ensures none { 0 < frame_max → frame_max < 8 → result ≡ 0 }
{
    if frame_max == 0 {
        return u32::MAX;
    }
    frame_max.saturating_sub(8)
}

/// Writes what comes before a body of so many bytes at the front of a buffer where it fits, and returns its length,
/// which is 7. After the body comes the end byte, 206.
#[unsafe(no_mangle)]
pub extern "C" fn feksroum_body_head(channel: u16, payload_len: u32, out: &mut [u8]) -> usize
    ensures written { WritesFront (head body_byte channel payload_len) out.old out.new result }
    ensures frame { (content : List ℕ) → length content ≡ payload_len
        → head body_byte channel payload_len ++ (content ++ end_byte ∷ [])
        ≡ canon (Body channel content) }
{
    let head = frame_head(FRAME_BODY, channel, payload_len);
    if head.len() <= out.len() {
        put_bytes(out, 0, &head);
    }
    head.len()
}
