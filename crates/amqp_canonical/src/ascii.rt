//! Whether few bytes are ASCII, by words that may overlap.

ghost use Rattle.std.specs.Prelude.{◌≤◌, IsTrue, length, take};
ghost use Rattle.std.specs.Str.{IsAscii};

/// Whether the first four bytes are ASCII: no highest bit of theirs is set.
#[inline(always)]
fn four_are_ascii(bytes: &[u8]) -> bool
    requires { 4 ≤ length bytes.now }
    ensures { IsTrue result → IsAscii (take 4 bytes.now) }
{
    u32::from_le_bytes([bytes[0], bytes[1], bytes[2], bytes[3]]) & 0x8080_8080 == 0
}

/// Whether the first eight bytes are ASCII: no highest bit of theirs is set.
#[inline(always)]
fn eight_are_ascii(bytes: &[u8]) -> bool
    requires { 8 ≤ length bytes.now }
    ensures { IsTrue result → IsAscii (take 8 bytes.now) }
{
    let word = u64::from_le_bytes([
        bytes[0], bytes[1], bytes[2], bytes[3], bytes[4], bytes[5], bytes[6], bytes[7],
    ]);
    word & 0x8080_8080_8080_8080 == 0
}

/// Whether four to eight bytes are ASCII, by their first and their last four, which may overlap.
#[inline(always)]
pub fn fours_are_ascii(bytes: &[u8]) -> bool
    requires many { 4 ≤ length bytes.now }
    requires few { length bytes.now ≤ 8 }
    ensures { IsTrue result → IsAscii bytes.now }
{
    four_are_ascii(bytes) && four_are_ascii(&bytes[bytes.len() - 4..])
}

/// Whether eight to sixteen bytes are ASCII, by their first and their last eight, which may overlap.
#[inline(always)]
pub fn eights_are_ascii(bytes: &[u8]) -> bool
    requires many { 8 ≤ length bytes.now }
    requires few { length bytes.now ≤ 16 }
    ensures { IsTrue result → IsAscii bytes.now }
{
    eight_are_ascii(bytes) && eight_are_ascii(&bytes[bytes.len() - 8..])
}

/// Whether sixteen to 32 bytes are ASCII, by their first and their last sixteen.
#[inline(always)]
pub fn sixteens_are_ascii(bytes: &[u8]) -> bool
    requires many { 16 ≤ length bytes.now }
    requires few { length bytes.now ≤ 32 }
    ensures { IsTrue result → IsAscii bytes.now }
{
    eights_are_ascii(&bytes[..16]) && eights_are_ascii(&bytes[bytes.len() - 16..])
}
