//! Lines, words and numbers.

ghost use Rattle.std.specs.Prelude.{◌≡◌, ◌<◌, ◌≤◌, ◌∷◌, ◌++◌, [], Some, length, take, drop, slice_index, not, true, false, IfNone, IfSome, unwrap_or};
ghost use Rattle.std.specs.List.{list_all};
ghost use Rattle.mp_script.specs.Numbers.{is_from};
ghost use Rattle.mp_script.specs.Splitting.{words_of, first_line, behind_line, is_end, number_of, is_blank, is_status, status_of};

use mp_checks::digits::number_of;
use mp_words::numbers::ReqId;
use mp_words::status::status_in;

fn is_blank(b: u8) -> bool
    ensures { result ≡ is_blank b }
{
    b == b' ' || b == b'\t' || b == b'\r'
}

/// Whether a byte stands behind a word: a blank or a line feed.
fn is_end(b: u8) -> bool
    ensures { result ≡ is_end b }
{
    b == b' ' || b == b'\t' || b == b'\r' || b == b'\n'
}

/// What stands behind the first line feed.
pub(crate) fn behind_line(bytes: &[u8]) -> &[u8]
    ensures { result.now ≡ behind_line bytes.now }
{
    for (i, b) in bytes.iter().enumerate() {
        if *b == b'\n' {
            let (_, rest) = bytes.split_at(i + 1);
            return rest;
        }
    }
    let (_, none) = bytes.split_at(bytes.len());
    none
}

/// How many blanks stand in front.
fn blanks(line: &[u8]) -> usize
    ensures within { result ≤ length line.now }
    ensures blank { list_all is_blank (take result line.now) ≡ true }
    ensures ends { result < length line.now → is_blank (slice_index line.now result) ≡ false }
{
    for (i, b) in line.iter().enumerate() {
        if !is_blank(*b) {
            return i;
        }
    }
    line.len()
}

/// How many bytes stand before the first blank or line feed.
fn word_len(word: &[u8]) -> usize
    ensures within { result ≤ length word.now }
    ensures word { list_all (λ b. not (is_end b)) (take result word.now) ≡ true }
    ensures ends { result < length word.now → is_end (slice_index word.now result) ≡ true }
{
    for (i, b) in word.iter().enumerate() {
        if is_end(*b) {
            return i;
        }
    }
    word.len()
}

/// The first word of the first line, and what follows the word.
pub(crate) fn split_word(bytes: &[u8]) -> Option<(&[u8], &[u8])>
    ensures none { IfNone result (words_of (first_line bytes.now) ≡ []) }
    ensures word { IfSome result (λ p. words_of (first_line bytes.now) ≡ p.0.now ∷ words_of (first_line p.1.now)) }
    ensures behind { IfSome result (λ p. behind_line p.1.now ≡ behind_line bytes.now) }
{
    let start = blanks(bytes);
    let (_, word) = bytes.split_at(start);
    let len = word_len(word);
    if len == 0 {
        return None;
    }
    Some(word.split_at(len))
}

/// Whether bytes begin with this text.
pub(crate) fn begins(bytes: &[u8], text: &str) -> bool
    ensures { result ≡ true → bytes.now ≡ text.now ++ drop (length text.now) bytes.now }
{
    let text = text.as_bytes();
    if bytes.len() < text.len() {
        return false;
    }
    for (i, b) in text.iter().enumerate() {
        if bytes[i] != *b {
            return false;
        }
    }
    true
}

/// What stands behind a line feed that bytes begin with.
pub(crate) fn behind_feed(bytes: &[u8]) -> Option<&[u8]>
    ensures over { IfSome result (λ after. first_line bytes.now ≡ []) }
    ensures behind { IfSome result (λ after. after.now ≡ behind_line bytes.now) }
{
    match bytes {
        [] => None,
        [b, ..] => {
            if *b != b'\n' {
                return None;
            }
            let (_, after) = bytes.split_at(1);
            Some(after)
        }
    }
}

/// How many digits stand before the first blank or line feed, and the number that they are: 0 where another byte stands
/// there, or where that isn't seen at once.
fn digits_len(word: &[u8]) -> (usize, u64)
    ensures within { result.0 ≤ length word.now }
    ensures word { list_all (λ b. not (is_end b)) (take result.0 word.now) ≡ true }
    ensures ends { 0 < result.0 → is_end (slice_index word.now result.0) ≡ true }
    ensures number { 0 < result.0 → number_of (take result.0 word.now) ≡ Some result.1 }
{
    let mut n = 0u64;
    for (i, b) in word.iter().enumerate() {
        if !b.is_ascii_digit() {
            if i <= 10 && is_end(*b) {
                return (i, n);
            }
            return (0, 0);
        }
        if n > 999_999_999 {
            return (0, 0);
        }
        n = n * 10 + u64::from(*b - b'0');
    }
    (0, 0)
}

/// The word of digits that bytes begin with, the number that it is, and what follows it.
pub(crate) fn split_digits(bytes: &[u8]) -> Option<(&[u8], u64, &[u8])>
    ensures word { IfSome result (λ p. words_of (first_line bytes.now) ≡ p.0.now ∷ words_of (first_line p.2.now)) }
    ensures number { IfSome result (λ p. number_of p.0.now ≡ Some p.1) }
    ensures behind { IfSome result (λ p. behind_line p.2.now ≡ behind_line bytes.now) }
{
    let (len, n) = digits_len(bytes);
    if len == 0 {
        return None;
    }
    let (word, rest) = bytes.split_at(len);
    Some((word, n, rest))
}

/// How many bytes stand before the first blank or line feed, and the number that they are.
fn number_len(word: &[u8]) -> (usize, Option<u64>)
    ensures within { result.0 ≤ length word.now }
    ensures word { list_all (λ b. not (is_end b)) (take result.0 word.now) ≡ true }
    ensures ends { result.0 < length word.now → is_end (slice_index word.now result.0) ≡ true }
    ensures number { result.1 ≡ number_of (take result.0 word.now) }
{
    let (len, n) = digits_len(word);
    if len != 0 {
        return (len, Some(n));
    }
    let len = word_len(word);
    let (text, _) = word.split_at(len);
    (len, number_of(text))
}

/// The first word of the first line, the number that it is, and what follows the word.
pub(crate) fn split_number(bytes: &[u8]) -> Option<(&[u8], Option<u64>, &[u8])>
    ensures none { IfNone result (words_of (first_line bytes.now) ≡ []) }
    ensures word { IfSome result (λ p. words_of (first_line bytes.now) ≡ p.0.now ∷ words_of (first_line p.2.now)) }
    ensures number { IfSome result (λ p. p.1 ≡ number_of p.0.now) }
    ensures behind { IfSome result (λ p. behind_line p.2.now ≡ behind_line bytes.now) }
{
    let start = blanks(bytes);
    let (_, word) = bytes.split_at(start);
    let (len, number) = number_len(word);
    if len == 0 {
        return None;
    }
    let (word, rest) = word.split_at(len);
    Some((word, number, rest))
}

/// Whether a number is there, from `low` to `high`.
pub(crate) fn is_in(low: u64, high: u64, number: Option<u64>) -> bool
    ensures { result ≡ is_from low high number }
{
    match number {
        Some(n) => low <= n && n <= high,
        None => false,
    }
}

/// A number that is there, from `low` to 65,535.
pub(crate) fn small(low: u64, number: Option<u64>) -> u32
    requires { is_from low 65535 number ≡ true }
    ensures value { result ≡ unwrap_or number 0 }
    ensures below { result < 65536 }
{
    number.unwrap_or(0) as u32
}

/// The request of a number.
pub(crate) fn request_of(number: Option<u64>) -> ReqId
    requires { is_from 0 65535 number ≡ true }
    ensures { result ≡ unwrap_or number 0 }
{
    ReqId::make(small(0, number)).unwrap()
}

/// Whether a word is a status: four hexadecimal digits, up to 7FFFh.
pub(crate) fn is_status(word: &[u8]) -> bool
    ensures { result ≡ is_status word.now }
{
    match status_in(word) {
        Some(n) => n <= 32767,
        None => false,
    }
}

/// The status that a word is.
pub(crate) fn status_of(word: &[u8]) -> u16
    requires { is_status word.now ≡ true }
    ensures value { result ≡ status_of word.now }
    ensures below { result < 32768 }
{
    status_in(word).unwrap_or(0)
}
