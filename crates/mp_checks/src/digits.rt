//! Numbers of decimal digits.

ghost use Rattle.std.specs.Prelude.{◌≡◌};
ghost use Rattle.mp_checks.specs.Digits.{number_of};

/// The number that a word of one to ten digits is, with leading zeros or without; `None` of any other word.
pub fn number_of(word: &[u8]) -> Option<u64>
    ensures { result ≡ number_of word.now }
{
    if word.is_empty() || word.len() > 10 {
        return None;
    }
    let mut n = 0u64;
    for b in word {
        if !b.is_ascii_digit() {
            return None;
        }
        n = n * 10 + u64::from(*b - b'0');
    }
    Some(n)
}
