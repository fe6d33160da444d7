//! Numbers within limits.

ghost use Rattle.std.specs.Prelude.{◌≡◌, ◌≤◌, IfSome};
ghost use Rattle.bf_words.specs.Numbers.{number_within};

/// The number that a word writes, from `least` to `most`: decimal digits, behind one `+` or none.
pub(crate) fn number_within(least: u16, most: u16, word: &str) -> Option<u16>
    ensures exact { result ≡ number_within least most word.now }
    ensures limited { IfSome result (λ number. number ≤ most) }
{
    match word.parse::<u16>() {
        Ok(number) if least <= number && number <= most => Some(number),
        _ => None,
    }
}
