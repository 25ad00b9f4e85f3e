//! Bodies cut anew: which pieces of the bytes that a caller holds of a message and of a new body are to be written.

ghost use Rattle.std.specs.Prelude.{◌≡◌, ◌+◌, ◌*◌, ◌==◌, ◌++◌, ◌<◌};
ghost use Rattle.std.specs.Prelude.{◌≤◌, ℕ, List, length, slice_get};
ghost use Rattle.amqp_turns.specs.Splits.{cut_count, frames_given};
ghost use Rattle.amqp_c.specs.Recutting.{IsCut, IsPieceOf, left_count, no_cut, no_piece};

use crate::statuses::BAD_ARGUMENT;

/// How a body is cut.
#[repr(C)]
#[derive(Clone, Copy, Debug, PartialEq, Eq)]
pub struct BodyCut {
    /// How many body frames are to be written now.
    pub pieces: u64,

    /// How many bytes are to be held after them: the last of those held and of the body.
    pub left: u32,

    /// 0; 41 where nothing is cut, and then all else is 0.
    pub status: u32,
}

/// The payload of one of these frames: bytes of those held, then bytes of the body.
#[repr(C)]
#[derive(Clone, Copy, Debug, PartialEq, Eq)]
pub struct BodyPiece {
    /// Where it starts in the bytes held.
    pub held_start: u32,

    /// How many of these it has.
    pub held_length: u32,

    /// Where it goes on in the body.
    pub start: u32,

    /// How many bytes of the body it has.
    pub length: u32,
}

/// How many pieces are cut off so many bytes.
fn count_pieces(size: u32, total: u64, ends: bool) -> u64
    requires some { 1 ≤ size }
    requires few { total < 8589934592 }
    ensures { result ≡ cut_count size ends total }
{
    let size = u64::from(size);
    if ends {
        return (total + (size - 1)) / size;
    }
    total / size
}

/// How many bytes are left of them then.
fn count_left(size: u32, total: u64, ends: bool) -> u32
    requires some { 1 ≤ size }
    ensures left { result ≡ left_count size ends total }
    ensures below { result < size }
{
    if ends {
        return 0;
    }
    (total % u64::from(size)) as u32
}

/// Nothing is cut.
fn no_cut() -> BodyCut
    ensures { result ≡ no_cut }
{
    BodyCut {
        pieces: 0,
        left: 0,
        status: u32::from(BAD_ARGUMENT),
    }
}

/// No piece.
fn no_piece() -> BodyPiece
    ensures { result ≡ no_piece }
{
    BodyPiece {
        held_start: 0,
        held_length: 0,
        start: 0,
        length: 0,
    }
}

/// How a body of `len` bytes is cut into pieces of `size`, where `held` bytes of its message are held, which come before it:
/// how many body frames are to be written, and how many bytes are to be held then. `ends` is 1 where the body ends its
/// message, and else 0.
#[unsafe(no_mangle)]
pub extern "C" fn feksroum_recut(size: u32, held: u32, len: u32, ends: u8) -> BodyCut
    ensures cut { held < size → ends ≤ 1 → (front body : List ℕ) → length front ≡ held
        → length body ≡ len → IsCut size (ends == 1) front body result }
    ensures below { held < size → result.left < size }
    ensures too_many_held { size ≤ held → result ≡ no_cut }
    ensures no_flag { 1 < ends → result ≡ no_cut }
{
    if held >= size || ends > 1 {
        return no_cut();
    }
    let total = u64::from(held) + u64::from(len);
    BodyCut {
        pieces: count_pieces(size, total, ends == 1),
        left: count_left(size, total, ends == 1),
        status: 0,
    }
}

/// The payload of body frame `k` of these, counted from 0. All bytes held stand in the first.
#[unsafe(no_mangle)]
pub extern "C" fn feksroum_piece_at(size: u32, held: u32, len: u32, ends: u8, k: u64) -> BodyPiece
    ensures piece { held < size → ends ≤ 1 → (front body : List ℕ) (channel : ℕ)
        → length front ≡ held → length body ≡ len
        → IsPieceOf channel front body result
        (slice_get (frames_given size channel (ends == 1) (front ++ body)) k) }
    ensures held_within { result.held_start + result.held_length ≤ held }
    ensures held_from_front { result.held_start ≡ 0 }
    ensures held_in_first { 1 ≤ k → result.held_length ≡ 0 }
    ensures within { result.start + result.length ≤ len }
    ensures most { result.held_length + result.length ≤ size }
    ensures too_many_held { size ≤ held → result ≡ no_piece }
    ensures no_flag { 1 < ends → result ≡ no_piece }
{
    if held >= size || ends > 1 {
        return no_piece();
    }
    let total = u64::from(held) + u64::from(len);
    if k >= count_pieces(size, total, ends == 1) {
        return no_piece();
    }
    let before = k * u64::from(size);
    let count = (total - before).min(u64::from(size)) as u32;
    if k == 0 {
        return BodyPiece {
            held_start: 0,
            held_length: held,
            start: 0,
            length: count - held,
        };
    }
    BodyPiece {
        held_start: 0,
        held_length: 0,
        start: (before - u64::from(held)) as u32,
        length: count,
    }
}
