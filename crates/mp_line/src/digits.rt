//! Numbers behind a text.

ghost use Rattle.std.specs.Prelude.{◌≡◌, ◌++◌, OnOk};
ghost use Rattle.std.specs.Fmt.{decimal};

use itoa::Buffer;
use std::alloc::AllocError;

/// Puts a number in decimal. One digit, as most have, wants no buffer.
///
/// # Errors
///
/// An error where memory runs out.
#[tactic(auto, using(std::proofs::lemmas::Fmt::decimal_digit))]
pub fn put_number(text: &mut Vec<u8>, n: u32) -> Result<(), AllocError>
    ensures { OnOk result (text.new.items ≡ text.old.items ++ decimal n) }
{
    if n < 10 {
        return text.extend_from_slice(&[b'0' + n as u8]);
    }
    let mut buffer = Buffer::new();
    text.extend_from_slice(buffer.format(n).as_bytes())
}
