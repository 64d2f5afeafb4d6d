//! How a status is written and read.

ghost use Rattle.std.specs.Prelude.{◌≡◌, ◌<◌, ◌++◌, true, OnOk, string_bytes};
ghost use Rattle.mp_words.specs.Status.{hex_digit, status_word, is_hex, hex_value, status_in};

use std::alloc::AllocError;

/// Puts a status behind a text: its four hexadecimal digits in upper case, the highest first.
///
/// # Errors
///
/// An error where memory runs out.
pub fn put_status(text: &mut String, status: u16) -> Result<(), AllocError>
    ensures { OnOk result (string_bytes text.new ≡ string_bytes text.old ++ status_word status) }
{
    text.push(hex_digit(status / 4096 % 16))?;
    text.push(hex_digit(status / 256 % 16))?;
    text.push(hex_digit(status / 16 % 16))?;
    text.push(hex_digit(status % 16))
}

/// The status that a word of four hexadecimal digits says, in either case: `None` exactly for any other word.
pub fn status_in(word: &[u8]) -> Option<u16>
    ensures { result ≡ status_in word.now }
{
    if word.len() != 4 {
        return None;
    }
    let mut status = 0u16;
    for b in word {
        if !is_hex(*b) {
            return None;
        }
        status = status * 16 + hex_value(*b);
    }
    Some(status)
}

/// A hexadecimal digit in upper case.
fn hex_digit(digit: u16) -> char
    requires { digit < 16 }
    ensures digit { result ≡ hex_digit digit }
    ensures ascii { result < 128 }
{
    let digit = digit as u8;
    char::from(if digit <= 9 {
        b'0' + digit
    } else {
        b'A' + (digit - 10)
    })
}

/// Whether a byte is a hexadecimal digit, of either case.
fn is_hex(b: u8) -> bool
    ensures { result ≡ is_hex b }
{
    b.is_ascii_digit() || (b >= b'A' && b <= b'F') || (b >= b'a' && b <= b'f')
}

/// The value of a hexadecimal digit.
fn hex_value(b: u8) -> u16
    requires { is_hex b ≡ true }
    ensures value { result ≡ hex_value b }
    ensures below { result < 16 }
{
    if b <= b'9' {
        u16::from(b - b'0')
    } else if b <= b'F' {
        u16::from(b - b'A') + 10
    } else {
        u16::from(b - b'a') + 10
    }
}
