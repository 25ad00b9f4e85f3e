//! Whether whole frames are tidy.

ghost use Rattle.std.specs.Prelude.{◌≡◌, ◌<◌, ◌^◌, ◌↔◌, length, IsOk, IsTrue};
ghost use Rattle.amqp_types.specs.Levels.{tidy};
ghost use Rattle.amqp_wire.specs.Frames.{Frame, raw_of};
ghost use Rattle.amqp_wire.specs.Spelling.{Spells, bytes_as, raw_bytes};
ghost use Rattle.amqp_wire.specs.Verdicts.{is_at, is_tidy_as, decode_raw, decode_payload};

use crate::frame_type::AMQPFrameType;
use crate::judging::judge_frame;
use crate::raw_frame::AMQPRawFrame;
use amqp_types::ChannelId;

/// Whether a whole payload of this type is tidy.
fn is_tidy_whole(frame_type: AMQPFrameType, channel_id: ChannelId, payload: &[u8]) -> bool
    requires whole { IsOk (decode_payload frame_type channel_id payload.now) }
    requires few { length payload.now < 2 ^ 32 }
    ensures value { result ≡ is_tidy_as frame_type payload.now }
    ensures spelled { (frame : Frame) → decode_payload frame_type channel_id payload.now ≡ Ok frame
        → IsTrue result ↔ Spells tidy (bytes_as frame_type channel_id payload.now) frame }
{
    let raw = AMQPRawFrame {
        frame_type,
        channel_id,
        payload,
    };
    match judge_frame(raw) {
        Ok(judged) => judged.tidy,
        Err(_) => false,
    }
}

/// Whether a whole frame is tidy: reserved fields, the weight, unused flag bits and bits 1 and 0 of the mask of
/// properties stand at their constants, and a heartbeat is empty. No memory is taken.
pub fn is_tidy(raw: AMQPRawFrame<'_>) -> bool
    requires whole { IsOk (decode_raw (raw_of raw)) }
    requires few { length raw.payload.now < 2 ^ 32 }
    ensures value { result ≡ is_at tidy (raw_of raw.entry) }
    ensures spelled { (frame : Frame) → decode_raw (raw_of raw.entry) ≡ Ok frame
        → IsTrue result ↔ Spells tidy (raw_bytes (raw_of raw.entry)) frame }
{
    is_tidy_whole(raw.frame_type, raw.channel_id, raw.payload)
}
