ghost use Rattle.std.specs.Prelude.{◌≤◌, length};

use super::*;
use std::alloc::{AllocError, Global};
use std::test::*;

/// A page with one descriptor: group 1, optimized, which names namespace 1.
const PAGE: [u8; 52] = [
    5, 0, 0, 0, 0, 0, 0, 0, 1, 0, 0, 0, 0, 0, 0, 0, //
    1, 0, 0, 0, 1, 0, 0, 0, 5, 0, 0, 0, 0, 0, 0, 0, //
    1, 0, 0, 0, 0, 0, 0, 0, 0, 0, 0, 0, 0, 0, 0, 0, //
    1, 0, 0, 0,
];

/// A page with two: group 1, optimized, names namespace 1, and group 2, non-optimized, names namespace 2.
const TWO_GROUPS: [u8; 88] = [
    5, 0, 0, 0, 0, 0, 0, 0, 2, 0, 0, 0, 0, 0, 0, 0, //
    1, 0, 0, 0, 1, 0, 0, 0, 5, 0, 0, 0, 0, 0, 0, 0, //
    1, 0, 0, 0, 0, 0, 0, 0, 0, 0, 0, 0, 0, 0, 0, 0, //
    1, 0, 0, 0, //
    2, 0, 0, 0, 1, 0, 0, 0, 5, 0, 0, 0, 0, 0, 0, 0, //
    2, 0, 0, 0, 0, 0, 0, 0, 0, 0, 0, 0, 0, 0, 0, 0, //
    2, 0, 0, 0,
];

const STATES: &str = "\
page 0 52 5 1
group 1 5 optimized 1
page 1 52 5 1
group 1 5 non-optimized 1
page 2 52 5 1
group 1 5 inaccessible 1
page 3 52 5 1
group 1 5 change 1
page 4 16 5 0
page 5 refused short-list 16
end
";

/// The page with one descriptor, with these bytes put at their places, cut or filled with zeros to this length.
fn page_bytes(alloc: Global, puts: &[(usize, u8)], size: usize) -> Result<Vec<u8>, AllocError> {
    let mut bytes = Vec::from_slice(alloc, &PAGE)?;
    for (place, byte) in puts {
        if let Some(slot) = bytes.get_mut(*place) {
            *slot = *byte;
        }
    }
    bytes.resize(size, 0)?;
    Ok(bytes)
}

/// What a page reads as, under the bound 4.
fn told(alloc: Global, bytes: &[u8]) -> Result<String, AllocError>
    requires { length bytes.now ≤ 65536 }
{
    match read_page(alloc, bytes, 4) {
        Ok(page) => {
            let mut boxes = Vec::new(alloc);
            boxes.push(Vec::from_slice(alloc, bytes)?)?;
            let text = page_text(alloc, boxes.as_slice(), 4).map_err(|_| AllocError)?;
            let text = String::from_utf8(text).map_err(|_| AllocError)?;
            let stated = state_for(&page, 1);
            format!(in alloc; "{text}{stated:?} {}", changing(&page))
        }
        Err(refusal) => format!(in alloc; "{refusal:?}"),
    }
}

#[test]
fn each_check_of_a_page(rt: HostRuntime) -> Result<(), Fail> {
    let alloc = rt.alloc();
    let cases = [
        (
            &[][..],
            52,
            "page 0 52 5 1\ngroup 1 5 optimized 1\nend\nSome(1) false",
        ),
        (&[], 15, "ShortHeader(0)"),
        (&[], 47, "ShortDescriptor(16)"),
        (&[], 51, "ShortList(16)"),
        (&[(8, 2)], 52, "ShortDescriptor(52)"),
        (&[(16, 0)], 52, "GroupZero(16)"),
        (
            &[(16, 4)],
            52,
            "page 0 52 5 1\ngroup 4 5 optimized 1\nend\nSome(1) false",
        ),
        (&[(16, 5)], 52, "GroupAbove(16)"),
        (&[(16, 0), (32, 0)], 52, "GroupZero(16)"),
        (&[(32, 0)], 52, "StateBad(16)"),
        (&[(32, 0x10)], 52, "StateBad(16)"),
        (
            &[(32, 9)],
            52,
            "page 0 52 5 1\ngroup 1 5 reserved-9 1\nend\nSome(9) false",
        ),
        (
            &[(20, 0)],
            52,
            "page 0 52 5 1\ngroup 1 5 optimized -\nend\nNone false",
        ),
        (
            &[(20, 0xff), (21, 0xff), (22, 0xff), (23, 0xff)],
            52,
            "ShortList(16)",
        ),
        (&[(32, 0x10)], 51, "StateBad(16)"),
        (
            &[],
            56,
            "page 0 56 5 1\ngroup 1 5 optimized 1\nend\nSome(1) false",
        ),
        (
            &[(33, 1)],
            52,
            "page 0 52 5 1\ngroup 1 5 optimized 1\nend\nSome(1) false",
        ),
        (
            &[(32, 15)],
            52,
            "page 0 52 5 1\ngroup 1 5 change 1\nend\nSome(15) true",
        ),
    ];
    for (puts, size, wanted) in cases {
        let bytes = page_bytes(alloc, puts, size)?;
        assert!(rt; bytes.len() <= 65_536);
        assert_eq!(rt; told(alloc, bytes.as_slice())?.as_str(), wanted);
    }
    Ok(())
}

/// Six boxes: a page in four states, a page without descriptors, and a page cut short.
fn boxes_of_states(alloc: Global) -> Result<Vec<u8>, AllocError> {
    let mut file = Vec::new(alloc);
    for state in [1, 2, 3, 15] {
        file.extend_from_slice(&[0x34, 0, 0, 0])?;
        let page = page_bytes(alloc, &[(32, state)], 52)?;
        file.extend_from_slice(page.as_slice())?;
    }
    file.extend_from_slice(&[
        0x10, 0, 0, 0, 5, 0, 0, 0, 0, 0, 0, 0, 0, 0, 0, 0, 0, 0, 0, 0,
    ])?;
    file.extend_from_slice(&[0x33, 0, 0, 0])?;
    file.extend_from_slice(&PAGE[..51])?;
    Ok(file)
}

/// What a file of boxes reads as: the text of its pages under a bound.
fn file_told(alloc: Global, bytes: &[u8], anagrpmax: u32) -> Result<String, AllocError> {
    match read_boxes(alloc, bytes) {
        Ok(boxes) => {
            let text = page_text(alloc, boxes.as_slice(), anagrpmax).map_err(|_| AllocError)?;
            String::from_utf8(text).map_err(|_| AllocError)
        }
        Err(refusal) => format!(in alloc; "{refusal:?}"),
    }
}

#[test]
fn each_check_of_a_box(rt: HostRuntime) -> Result<(), Fail> {
    let alloc = rt.alloc();
    let states = boxes_of_states(alloc)?;
    let many = vec![in alloc; 0u8; 4100]?;
    let cases = [
        (&[][..], "end\n"),
        (&[0, 0, 0], "ShortBox(0)"),
        (&[5, 0, 0, 0, 1], "ShortBox(0)"),
        (&[1, 0, 1, 0], "LongBox(0)"),
        (&[0, 0, 0, 0, 1], "ShortBox(4)"),
        (&[0, 0, 0, 0], "page 0 refused short-header 0\nend\n"),
        (many.as_slice(), "TooMany"),
        (states.as_slice(), STATES),
    ];
    for (bytes, wanted) in cases {
        assert_eq!(rt; file_told(alloc, bytes, 4)?.as_str(), wanted);
    }
    Ok(())
}

/// A box with a page of the greatest numbers, whose one descriptor names as many namespaces as this.
fn greatest(alloc: Global, count: u8) -> Result<Vec<u8>, AllocError> {
    let mut bytes = Vec::new(alloc);
    let size = 48 + 4 * u32::from(count);
    bytes.extend_from_slice(&size.to_le_bytes())?;
    bytes.extend_from_slice(&[0xff; 8])?;
    bytes.extend_from_slice(&[1, 0, 0, 0, 0, 0, 0, 0, 0xff, 0xff, 0xff, 0xff])?;
    bytes.extend_from_slice(&[count, 0, 0, 0])?;
    bytes.extend_from_slice(&[0xff; 8])?;
    bytes.extend_from_slice(&[14, 0, 0, 0, 0, 0, 0, 0, 0, 0, 0, 0, 0, 0, 0, 0])?;
    for _ in 0..count {
        bytes.extend_from_slice(&[0xff; 4])?;
    }
    Ok(bytes)
}

/// A line of the greatest numbers.
const LINE: &str = "group 4294967295 18446744073709551615 reserved-14 ";

#[test]
fn lists_longer_than_a_line(rt: HostRuntime) -> Result<(), Fail> {
    let alloc = rt.alloc();
    let cases = [
        (0, "48", "-"),
        (1, "52", "4294967295"),
        (
            7,
            "76",
            "4294967295,4294967295,4294967295,4294967295,4294967295,4294967295,4294967295",
        ),
        (
            8,
            "80",
            "4294967295,4294967295,4294967295,4294967295,4294967295,4294967295,4294967295,4294967295",
        ),
    ];
    for (count, size, list) in cases {
        let bytes = greatest(alloc, count)?;
        let wanted = format!(in alloc;
            "page 0 {size} 18446744073709551615 1\n{LINE}{list}\nend\n"
        )?;
        assert_eq!(rt;
            file_told(alloc, bytes.as_slice(), u32::MAX)?.as_str(),
            wanted.as_str()
        );
    }
    Ok(())
}

#[test]
fn writes_what_was_read(rt: HostRuntime) -> Result<(), Fail> {
    let alloc = rt.alloc();
    let page = read_page(alloc, &TWO_GROUPS, 2).ok().ok_or("a page")?;
    assert_eq!(rt; state_for(&page, 2), Some(2));
    let again = write_page(alloc, &page).ok().ok_or("bytes")?;
    assert_eq!(rt; again.as_slice(), TWO_GROUPS.as_slice());
    Ok(())
}
