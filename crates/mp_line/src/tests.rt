//! Each function at its ends.

ghost use Rattle.std.specs.Prelude.{◌≤◌, length};

use crate::digits::put_number;
use crate::line::{
    place_byte, place_number, place_numbers, place_one, place_pair, place_status, place_statuses,
    place_three, place_two, place_wide, place_word,
};
use crate::list::{make_room, place_list, put_line};
use std::alloc::{AllocError, Global};
use std::test::Fail;

/// A line without a word.
const DOTS: [u8; 128] = [b'.'; 128];

/// A number at the line's end, then at its beginning among those of 64 bits, and then behind a text.
fn number_thrice(alloc: Global, n: u32) -> Result<Vec<u8>, AllocError> {
    let mut line = DOTS;
    let end = place_number(&mut line, 118, n);
    let mut text = Vec::from_slice(alloc, &line[118..end])?;
    let at = place_byte(&mut line, 0, b' ');
    let end = place_wide(&mut line, at, u64::from(n));
    let end = place_byte(&mut line, end, b' ');
    text.extend_from_slice(&line[..end])?;
    put_number(&mut text, n)?;
    Ok(text)
}

/// A number of up to 64 bits at the line's end.
fn wide(alloc: Global, n: u64) -> Result<Vec<u8>, AllocError> {
    let mut line = DOTS;
    let end = place_wide(&mut line, 108, n);
    Vec::from_slice(alloc, &line[..end])
}

/// Statuses at the line's end.
fn joined(alloc: Global, statuses: &[u16]) -> Result<Vec<u8>, AllocError>
    requires { length statuses.now ≤ 6 }
{
    let mut line = DOTS;
    let end = place_statuses(&mut line, 98, statuses);
    Vec::from_slice(alloc, &line[98..end])
}

/// A line of numbers behind dots.
fn listed(alloc: Global, at: usize, numbers: &[u32]) -> Result<Vec<u8>, AllocError>
    requires { at ≤ 128 }
{
    let mut text = Vec::new(alloc);
    let mut line = DOTS;
    let at = place_list(&mut text, &mut line, at, numbers)?;
    let at = make_room(&mut text, &line, at)?;
    put_line(&mut text, &mut line, at)?;
    Ok(text)
}

/// What goes to the text for room at this place, and what is left.
fn roomy(alloc: Global, at: usize) -> Result<(usize, usize), AllocError>
    requires { at ≤ 128 }
{
    let mut text = Vec::from_slice(alloc, b"t ")?;
    let end = make_room(&mut text, &DOTS, at)?;
    Ok((text.len(), end))
}

#[test]
fn numbers_of_each_length(rt: HostRuntime) -> Result<(), Fail> {
    let alloc = rt.alloc();
    let cases = [
        (0, "0"),
        (9, "9"),
        (10, "10"),
        (99, "99"),
        (100, "100"),
        (101, "101"),
        (999, "999"),
        (1000, "1000"),
        (1001, "1001"),
        (9999, "9999"),
        (10_000, "10000"),
        (10_203, "10203"),
        (99_999, "99999"),
        (100_000, "100000"),
        (100_001, "100001"),
        (u32::MAX, "4294967295"),
    ];
    for (n, wanted) in cases {
        let all = format!(in alloc; "{wanted} {wanted} {wanted}")?;
        assert_eq!(rt; number_thrice(alloc, n)?.as_slice(), all.as_bytes());
    }
    Ok(())
}

#[test]
fn wide_numbers(rt: HostRuntime) -> Result<(), Fail> {
    let alloc = rt.alloc();
    let dots = std::str::from_utf8(&DOTS[..108]).unwrap_or("");
    let cases = [
        (0, "0"),
        (99_999, "99999"),
        (100_000, "100000"),
        (4_294_967_296, "4294967296"),
        (9_999_999_999_999_999_999, "9999999999999999999"),
        (10_000_000_000_000_000_000, "10000000000000000000"),
        (u64::MAX, "18446744073709551615"),
    ];
    for (n, wanted) in cases {
        let all = format!(in alloc; "{dots}{wanted}")?;
        assert_eq!(rt; wide(alloc, n)?.as_slice(), all.as_bytes());
    }
    Ok(())
}

/// The std formatter writes the same of each number.
#[test]
fn numbers_as_formatted(rt: HostRuntime) -> Result<(), Fail> {
    let alloc = rt.alloc();
    for n in 0..100_100 {
        let all = format!(in alloc; "{n} {n} {n}")?;
        assert_eq!(rt; number_thrice(alloc, n)?.as_slice(), all.as_bytes());
    }
    Ok(())
}

#[test]
fn bytes_and_words(rt: HostRuntime) -> Result<(), Fail> {
    let mut line = DOTS;
    let end = place_byte(&mut line, 0, b'<');
    assert_eq!(rt; end, 1);
    let end = place_byte(&mut line, 127, b'>');
    assert_eq!(rt; end, 128);
    let end = place_word(&mut line, 1, b"word");
    assert_eq!(rt; end, 5);
    assert_eq!(rt; place_word(&mut line, 5, b""), 5);
    assert_eq!(rt; &line[..6], b"<word.".as_slice());
    let end = place_word(&mut line, 123, b"last");
    assert_eq!(rt; end, 127);
    assert_eq!(rt; &line[122..], b".last>".as_slice());
    let end = place_word(&mut line, 0, &[b'='; 128]);
    assert_eq!(rt; end, 128);
    assert_eq!(rt; line.as_slice(), [b'='; 128].as_slice());
    assert_eq!(rt; place_word(&mut line, 128, b""), 128);
    Ok(())
}

#[test]
fn words_with_numbers(rt: HostRuntime) -> Result<(), Fail> {
    let most = u32::MAX;
    let mut line = DOTS;
    let end = place_one(&mut line, 113, b"word", most);
    assert_eq!(rt; &line[113..end], b"word 4294967295".as_slice());
    let end = place_two(&mut line, 102, b"word", most, most);
    assert_eq!(rt; &line[102..end], b"word 4294967295 4294967295".as_slice());
    let end = place_three(&mut line, 91, b"word", most, most, most);
    assert_eq!(rt; end, 128);
    assert_eq!(rt;
        &line[91..],
        b"word 4294967295 4294967295 4294967295".as_slice()
    );
    let end = place_three(&mut line, 0, b"at", 0, 9, 10);
    assert_eq!(rt; &line[..end], b"at 0 9 10".as_slice());
    let end = place_two(&mut line, 0, b"", 99, 100);
    assert_eq!(rt; &line[..end], b" 99 100".as_slice());
    let end = place_one(&mut line, 0, b"-", 0);
    assert_eq!(rt; &line[..end], b"- 0".as_slice());
    Ok(())
}

#[test]
fn pairs_of_numbers(rt: HostRuntime) -> Result<(), Fail> {
    let most = u32::MAX;
    let mut line = DOTS;
    let end = place_numbers(&mut line, 0, 0, 9);
    assert_eq!(rt; &line[..end], b"0 9 ".as_slice());
    let end = place_numbers(&mut line, 106, most, most);
    assert_eq!(rt; end, 128);
    assert_eq!(rt; &line[106..], b"4294967295 4294967295 ".as_slice());
    let end = place_pair(&mut line, 0, 10, 99);
    assert_eq!(rt; &line[..end], b"10:99".as_slice());
    let end = place_pair(&mut line, 107, most, most);
    assert_eq!(rt; end, 128);
    assert_eq!(rt; &line[107..], b"4294967295:4294967295".as_slice());
    Ok(())
}

#[test]
fn statuses(rt: HostRuntime) -> Result<(), Fail> {
    let alloc = rt.alloc();
    let cases = [
        (&[][..], "-"),
        (&[0], "0000"),
        (&[9, 10], "0009,000A"),
        (&[0x7fff, 0x302], "7FFF,0302"),
        (
            &[1, 0xffff, 3, 0xf, 0x10, 0x9a],
            "0001,FFFF,0003,000F,0010,009A",
        ),
    ];
    for (statuses, wanted) in cases {
        assert!(rt; statuses.len() <= 6);
        assert_eq!(rt; joined(alloc, statuses)?.as_slice(), wanted.as_bytes());
    }
    let mut line = DOTS;
    let end = place_status(&mut line, 124, 0xc0de);
    assert_eq!(rt; end, 128);
    assert_eq!(rt; &line[123..], b".C0DE".as_slice());
    Ok(())
}

/// The first line of a text is as long as can be.
#[test]
fn lines_up_to_the_end(rt: HostRuntime) -> Result<(), Fail> {
    let alloc = rt.alloc();
    let mut text = Vec::new(alloc);
    let mut line = DOTS;
    put_line(&mut text, &mut line, 127)?;
    put_line(&mut text, &mut line, 3)?;
    put_line(&mut text, &mut line, 0)?;
    assert_eq!(rt; text.len(), 133);
    assert_eq!(rt; &text.as_slice()[..127], &DOTS[..127]);
    assert_eq!(rt; &text.as_slice()[127..], b"\n...\n\n".as_slice());
    Ok(())
}

#[test]
fn room_where_there_is_none(rt: HostRuntime) -> Result<(), Fail> {
    let alloc = rt.alloc();
    for (at, length, end) in [(0, 2, 0), (117, 2, 117), (118, 120, 0), (128, 130, 0)] {
        assert!(rt; at <= 128);
        let (all, left) = roomy(alloc, at)?;
        assert_eq!(rt; all, length);
        assert_eq!(rt; left, end);
    }
    Ok(())
}

/// Thirteen of the greatest numbers, which want 142 bytes.
const LONG: &str =
    "4294967295,4294967295,4294967295,4294967295,4294967295,4294967295,4294967295,4294967295,4294967295,4294967295,4294967295,4294967295,4294967295";

#[test]
fn lists_longer_than_a_line(rt: HostRuntime) -> Result<(), Fail> {
    let alloc = rt.alloc();
    let long = [u32::MAX; 13];
    let cases = [
        (0, &[][..], "-"),
        (128, &[], "-"),
        (117, &[0], "0"),
        (118, &[0], "0"),
        (128, &[9, 10, 99, 100], "9,10,99,100"),
        (0, &long, LONG),
        (117, &long, LONG),
        (128, &long, LONG),
    ];
    for (at, numbers, wanted) in cases {
        assert!(rt; at <= 128);
        let dots = std::str::from_utf8(&DOTS[..at]).unwrap_or("");
        let all = format!(in alloc; "{dots}{wanted}\n")?;
        assert_eq!(rt; listed(alloc, at, numbers)?.as_slice(), all.as_bytes());
    }
    Ok(())
}
