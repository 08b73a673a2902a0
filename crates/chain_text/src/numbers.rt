//! Numbers as words.

ghost use Rattle.std.specs.Prelude.{◌≡◌, ◌≤◌, IfSome};
ghost use Rattle.chain_text.specs.Inside.{begins_otherwise};
ghost use Rattle.chain_text.specs.Numbers.{most_number, number_of};

/// The number, at most so great, that a word spells in digits without a leading zero.
pub(crate) fn number_of(most: u64, word: &[u8]) -> Option<u64>
    ensures number { result ≡ number_of 0 most word.now }
    ensures within { IfSome result (λ n. n ≤ most) }
{
    match decimal_of(word) {
        Some(number) if number <= most => Some(number),
        _ => None,
    }
}

/// The number that a word spells so.
fn decimal_of(word: &[u8]) -> Option<u64>
    ensures { result ≡ number_of 0 most_number word.now }
{
    match std::str::from_utf8(word) {
        Ok(text) => spelt(text),
        Err(_) => None,
    }
}

/// The number that a text spells so.
fn spelt(text: &str) -> Option<u64>
    ensures { result ≡ number_of 0 most_number text.now }
{
    if begins_otherwise(text.as_bytes()) {
        return None;
    }
    text.parse().ok()
}

/// Whether a word begins with a sign, or with a zero that isn't all of it.
fn begins_otherwise(word: &[u8]) -> bool
    ensures { result ≡ begins_otherwise word.now }
{
    !word.is_empty() && (word[0] == b'+' || (word[0] == b'0' && word.len() > 1))
}
