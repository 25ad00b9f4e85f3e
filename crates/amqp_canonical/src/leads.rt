//! The first bytes of keys as numbers, which compare faster than keys.

ghost use Rattle.std.specs.Prelude.{◌≡◌, ◌<◌, length, drop};
ghost use Rattle.amqp_canonical.specs.Leads.{leading};

/// The bytes of a key of fewer than eight bytes as a number, with zeros after them.
#[tactic(auto, using(crate::proofs::Leading::eight_are, crate::proofs::Leading::beyond))]
#[inline(never)]
fn fewer_than_eight(key: &[u8]) -> u64
    requires { length key.now < 8 }
    ensures { result ≡ leading 8 key.now }
{
    match key {
        [] => 0,
        [a] => u64::from_be_bytes([*a, 0, 0, 0, 0, 0, 0, 0]),
        [a, b] => u64::from_be_bytes([*a, *b, 0, 0, 0, 0, 0, 0]),
        [a, b, c] => u64::from_be_bytes([*a, *b, *c, 0, 0, 0, 0, 0]),
        [a, b, c, d] => u64::from_be_bytes([*a, *b, *c, *d, 0, 0, 0, 0]),
        [a, b, c, d, e] => u64::from_be_bytes([*a, *b, *c, *d, *e, 0, 0, 0]),
        [a, b, c, d, e, f] => u64::from_be_bytes([*a, *b, *c, *d, *e, *f, 0, 0]),
        [a, b, c, d, e, f, g, ..] => u64::from_be_bytes([*a, *b, *c, *d, *e, *f, *g, 0]),
    }
}

/// The first eight bytes of a key as a number, with zeros after a shorter key.
#[tactic(auto, using(crate::proofs::Leading::eight_are))]
#[inline(always)]
pub(crate) fn first_eight(key: &[u8]) -> u64
    ensures { result ≡ leading 8 key.now }
{
    match key {
        [a, b, c, d, e, f, g, h, ..] => u64::from_be_bytes([*a, *b, *c, *d, *e, *f, *g, *h]),
        short => fewer_than_eight(short),
    }
}

/// The two bytes of a key after its first eight as a number, with zeros after a shorter key.
#[tactic(auto, using(crate::proofs::Leading::two_are, crate::proofs::Leading::beyond))]
#[inline(always)]
pub(crate) fn next_two(key: &[u8]) -> u16
    ensures { result ≡ leading 2 (drop 8 key.now) }
{
    match key {
        [_, _, _, _, _, _, _, _, a, b, ..] => u16::from_be_bytes([*a, *b]),
        [_, _, _, _, _, _, _, _, a] => u16::from_be_bytes([*a, 0]),
        _ => 0,
    }
}

/// The first eight bytes and the next two of a key of any length, as numbers.
#[inline(never)]
fn any_ten(key: &[u8]) -> (u64, u16)
    ensures first { result.0 ≡ leading 8 key.now }
    ensures next { result.1 ≡ leading 2 (drop 8 key.now) }
{
    (first_eight(key), next_two(key))
}

/// The first eight bytes of a key as a number, and the two after them, with zeros after a shorter key. Most keys have as
/// many, or one less, and take no call.
#[tactic(auto, using(crate::proofs::Leading::eight_are, crate::proofs::Leading::two_are, crate::proofs::Leading::beyond))]
#[inline(always)]
pub(crate) fn first_ten(key: &[u8]) -> (u64, u16)
    ensures first { result.0 ≡ leading 8 key.now }
    ensures next { result.1 ≡ leading 2 (drop 8 key.now) }
{
    match key {
        [a, b, c, d, e, f, g, h, i, j, ..] => (
            u64::from_be_bytes([*a, *b, *c, *d, *e, *f, *g, *h]),
            u16::from_be_bytes([*i, *j]),
        ),
        [a, b, c, d, e, f, g, h, i] => (
            u64::from_be_bytes([*a, *b, *c, *d, *e, *f, *g, *h]),
            u16::from_be_bytes([*i, 0]),
        ),
        short => any_ten(short),
    }
}
