//! What is longer than a line: where the line is full, what it has goes to the text.

ghost use Rattle.std.specs.Prelude.{◌≡◌, ◌<◌, ◌≤◌, ◌++◌, OnOk, IfOk, codes, take};
ghost use Rattle.std.specs.Fmt.{decimal};
ghost use Rattle.mp_line.specs.Words.{list_word};

use crate::line::{place_byte, place_number};
use std::alloc::AllocError;

/// Makes room for eleven bytes: where the line has less, what it has goes to the text. Tells where the line then ends.
///
/// # Errors
///
/// An error where memory runs out.
#[inline(always)]
pub fn make_room(text: &mut Vec<u8>, line: &[u8; 128], at: usize) -> Result<usize, AllocError>
    requires { at ≤ 128 }
    ensures bytes { IfOk result (λ end. text.new.items ++ take end line.now ≡ text.old.items ++ take at line.now) }
    ensures room { IfOk result (λ end. end ≤ 117) }
{
    if at <= 117 {
        return Ok(at);
    }
    text.extend_from_slice(&line[..at])?;
    Ok(0)
}

/// Places a comma and a number. Where the line has no room for them, what it has goes to the text first.
fn place_next(
    text: &mut Vec<u8>,
    line: &mut [u8; 128],
    at: usize,
    n: u32,
) -> Result<usize, AllocError>
    requires { at ≤ 128 }
    ensures bytes { IfOk result (λ end. text.new.items ++ take end line.new ≡ text.old.items ++ take at line.old ++ codes "," ++ decimal n) }
    ensures room { IfOk result (λ end. end ≤ 128) }
{
    let at = make_room(text, line, at)?;
    let at = place_byte(line, at, b',');
    Ok(place_number(line, at, n))
}

/// Places numbers joined by commas, or a dash, behind at most 117 bytes.
fn place_joined(
    text: &mut Vec<u8>,
    line: &mut [u8; 128],
    at: usize,
    numbers: &[u32],
) -> Result<usize, AllocError>
    requires { at ≤ 117 }
    ensures bytes { IfOk result (λ end. text.new.items ++ take end line.new ≡ text.old.items ++ take at line.old ++ list_word decimal numbers.now) }
    ensures room { IfOk result (λ end. end ≤ 128) }
{
    let Some((first, rest)) = numbers.split_first() else {
        return Ok(place_byte(line, at, b'-'));
    };
    let mut at = place_number(line, at, *first);
    for n in rest {
        at = place_next(text, line, at, *n)?;
    }
    Ok(at)
}

/// Places numbers joined by commas, or a dash. What the line has no room for goes to the text. Tells where the line
/// then ends.
///
/// # Errors
///
/// An error where memory runs out.
pub fn place_list(
    text: &mut Vec<u8>,
    line: &mut [u8; 128],
    at: usize,
    numbers: &[u32],
) -> Result<usize, AllocError>
    requires { at ≤ 128 }
    ensures bytes { IfOk result (λ end. text.new.items ++ take end line.new ≡ text.old.items ++ take at line.old ++ list_word decimal numbers.now) }
    ensures room { IfOk result (λ end. end ≤ 128) }
{
    let at = make_room(text, line, at)?;
    place_joined(text, line, at, numbers)
}

/// Ends the line, and puts it behind the text.
///
/// # Errors
///
/// An error where memory runs out.
#[inline(always)]
pub fn put_line(text: &mut Vec<u8>, line: &mut [u8; 128], at: usize) -> Result<(), AllocError>
    requires { at < 128 }
    ensures { OnOk result (text.new.items ≡ text.old.items ++ take at line.old ++ codes "\n") }
{
    let end = place_byte(line, at, b'\n');
    text.extend_from_slice(&line[..end])
}
