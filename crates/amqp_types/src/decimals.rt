//! Numbers that are written in decimal.

ghost use Rattle.std.specs.Prelude.{◌≡◌, ◌≤◌, IfSome};
ghost use Rattle.amqp_types.specs.Numerals.{has_padding, number_named};

/// Whether a word begins with a plus, or with a zero and more after it.
fn is_padded(word: &str) -> bool
    ensures { result ≡ has_padding word.now }
{
    word.starts_with('+') || word.len() > 1 && word.starts_with('0')
}

/// The number that a word names, up to `most`: `0`, or digits without a leading zero.
pub fn parse_decimal(word: &str, most: u32) -> Option<u32>
    ensures named { result ≡ number_named most word.now }
    ensures few { IfSome result (λ n. n ≤ most) }
{
    if is_padded(word) {
        return None;
    }
    match word.parse::<u32>() {
        Ok(number) if number <= most => Some(number),
        _ => None,
    }
}
