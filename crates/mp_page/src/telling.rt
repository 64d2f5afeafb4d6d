//! The text that tells of log pages.
ghost use Rattle.std.specs.Prelude.{◌≡◌, ◌≤◌, ◌+◌, ◌++◌, ℕ, length, map, take, codes, Ok, Err, All, OnOk, IfOk, IfErr};
ghost use Rattle.std.specs.Fmt.{decimal};
ghost use Rattle.std.specs.List.{flat_map};
ghost use Rattle.mp_words.specs.Names.{state_word};
ghost use Rattle.mp_page.specs.Page.{page_in};
ghost use Rattle.mp_page.specs.Text.{kind_word, offset_of, group_line, page_lines, refused_line, box_lines, lines_from, pages_text};

use crate::page::{Group, Page, PageError};
use crate::reading::read_page;
use mp_line::line::{place_byte, place_number, place_wide, place_word};
use mp_line::list::{make_room, place_list, put_line};
use mp_words::names::page_check_name;
use mp_words::states::{CHANGE, INACCESSIBLE, NON_OPTIMIZED, OPTIMIZED, PERSISTENT_LOSS};
use std::alloc::{AllocError, Global};

/// Places the name of an ANA state, `reserved-N` for a state N that the standard has no name for.
fn place_state(line: &mut [u8; 128], at: usize, state: u8) -> usize
    requires { at + 19 ≤ 128 }
    ensures bytes { take result line.new ≡ take at line.old ++ state_word state }
    ensures end { (at ≤ result) × (result ≤ at + 19) }
{
    match state {
        OPTIMIZED => place_word(line, at, b"optimized"),
        NON_OPTIMIZED => place_word(line, at, b"non-optimized"),
        INACCESSIBLE => place_word(line, at, b"inaccessible"),
        PERSISTENT_LOSS => place_word(line, at, b"persistent-loss"),
        CHANGE => place_word(line, at, b"change"),
        _ => {
            let at = place_word(line, at, b"reserved-");
            place_number(line, at, u32::from(state))
        }
    }
}

/// Places what stands before the namespaces in the line of a descriptor.
fn place_head(line: &mut [u8; 128], group: &Group) -> usize
    ensures bytes { take result line.new ≡ codes "group " ++ decimal group.now.id ++ codes " " ++ decimal group.now.changes ++ codes " " ++ state_word group.now.state ++ codes " " }
    ensures end { result ≤ 128 }
{
    let at = place_word(line, 0, b"group ");
    let at = place_number(line, at, group.id);
    let at = place_byte(line, at, b' ');
    let at = place_wide(line, at, group.changes);
    let at = place_byte(line, at, b' ');
    let at = place_state(line, at, group.state);
    place_byte(line, at, b' ')
}

/// The line of a descriptor.
fn put_group(text: &mut Vec<u8>, line: &mut [u8; 128], group: &Group) -> Result<(), AllocError>
    ensures { OnOk result (text.new.items ≡ text.old.items ++ group_line group.now) }
{
    let at = place_head(line, group);
    let at = place_list(text, line, at, group.nsids.as_slice())?;
    let at = make_room(text, line, at)?;
    put_line(text, line, at)
}

/// The lines of descriptors.
fn put_groups(text: &mut Vec<u8>, line: &mut [u8; 128], groups: &[Group]) -> Result<(), AllocError>
    ensures { OnOk result (text.new.items ≡ text.old.items ++ flat_map group_line groups.now) }
{
    for group in groups {
        put_group(text, line, group)?;
    }
    Ok(())
}

/// Places the beginning of the line of a box.
fn place_box(line: &mut [u8; 128], number: usize) -> usize
    ensures bytes { take result line.new ≡ codes "page " ++ decimal number ++ codes " " }
    ensures end { result ≤ 26 }
{
    let at = place_word(line, 0, b"page ");
    let at = place_wide(line, at, number as u64);
    place_byte(line, at, b' ')
}

/// The line of a page, and those of its descriptors.
fn put_page(
    text: &mut Vec<u8>,
    line: &mut [u8; 128],
    number: usize,
    size: usize,
    page: &Page,
) -> Result<(), AllocError>
    ensures { OnOk result (text.new.items ≡ text.old.items ++ page_lines number size page.now) }
{
    let at = place_box(line, number);
    let at = place_wide(line, at, size as u64);
    let at = place_byte(line, at, b' ');
    let at = place_wide(line, at, page.changes);
    let at = place_byte(line, at, b' ');
    let at = place_wide(line, at, page.groups.len() as u64);
    put_line(text, line, at)?;
    put_groups(text, line, page.groups.as_slice())
}

/// The name of the check that fails.
fn kind_name(refusal: PageError) -> &'static str
    ensures { result.now ≡ kind_word refusal }
{
    match refusal {
        PageError::ShortHeader(_) => page_check_name(1),
        PageError::ShortDescriptor(_) => page_check_name(2),
        PageError::GroupZero(_) => page_check_name(3),
        PageError::GroupAbove(_) => page_check_name(4),
        PageError::StateBad(_) => page_check_name(5),
        PageError::ShortList(_) => page_check_name(6),
        PageError::NoMemory => "",
    }
}

/// Where it fails.
fn offset(refusal: PageError) -> u32
    ensures { result ≡ offset_of refusal }
{
    match refusal {
        PageError::ShortHeader(offset)
        | PageError::ShortDescriptor(offset)
        | PageError::GroupZero(offset)
        | PageError::GroupAbove(offset)
        | PageError::StateBad(offset)
        | PageError::ShortList(offset) => offset,
        PageError::NoMemory => 0,
    }
}

/// The line of a box whose page is refused.
fn put_refusal(
    text: &mut Vec<u8>,
    line: &mut [u8; 128],
    number: usize,
    refusal: PageError,
) -> Result<(), AllocError>
    ensures { OnOk result (text.new.items ≡ text.old.items ++ refused_line number refusal) }
{
    let at = place_box(line, number);
    let at = place_word(line, at, b"refused ");
    let at = place_word(line, at, kind_name(refusal).as_bytes());
    let at = place_byte(line, at, b' ');
    let at = place_number(line, at, offset(refusal));
    put_line(text, line, at)
}

/// What is told of a box.
fn put_box(
    text: &mut Vec<u8>,
    line: &mut [u8; 128],
    alloc: Global,
    number: usize,
    bytes: &[u8],
    anagrpmax: u32,
) -> Result<(), PageError>
    requires { length bytes.now ≤ 65536 }
    ensures told { OnOk result (text.new.items ≡ text.old.items ++ box_lines number (length bytes.now) (page_in anagrpmax bytes.now)) }
    ensures memory { IfErr result (λ e. e ≡ PageError.NoMemory) }
{
    match read_page(alloc, bytes, anagrpmax) {
        Ok(page) => put_page(text, line, number, bytes.len(), &page)?,
        Err(PageError::NoMemory) => return Err(PageError::NoMemory),
        Err(refusal) => put_refusal(text, line, number, refusal)?,
    }
    Ok(())
}

/// What is told of boxes.
fn put_boxes(
    text: &mut Vec<u8>,
    alloc: Global,
    boxes: &[Vec<u8>],
    anagrpmax: u32,
) -> Result<(), PageError>
    requires { All (λ page. length page.items ≤ 65536) boxes.now }
    ensures told { OnOk result (text.new.items ≡ text.old.items ++ lines_from anagrpmax 0 (map (λ v. v.items) boxes.now)) }
    ensures memory { IfErr result (λ e. e ≡ PageError.NoMemory) }
{
    let mut line = [0; 128];
    for (number, page) in boxes.iter().enumerate() {
        put_box(text, &mut line, alloc, number, page.as_slice(), anagrpmax)?;
    }
    Ok(())
}

/// The text of log pages, each of at most 65,536 bytes, from a controller whose greatest ANA group identifier is
/// `anagrpmax`.
///
/// For each page by number, from 0: `page NUMBER LENGTH CHANGES GROUPS`, and then `group ID CHANGES STATE NSIDS` for
/// each of its descriptors; or `page NUMBER refused KIND OFFSET`, where [`read_page`] refuses it. The last line is
/// `end`.
///
/// # Errors
///
/// `NoMemory` where memory runs out, and no other.
#[tactic(auto, unfolding(crate::specs::Text::pages_text))]
pub fn page_text(alloc: Global, boxes: &[Vec<u8>], anagrpmax: u32) -> Result<Vec<u8>, PageError>
    requires { All (λ page. length page.items ≤ 65536) boxes.now }
    ensures text { IfOk result (λ v. v.items ≡ pages_text anagrpmax (map (λ v. v.items) boxes.now)) }
    ensures memory { IfErr result (λ e. e ≡ PageError.NoMemory) }
{
    let mut text = Vec::new(alloc);
    put_boxes(&mut text, alloc, boxes, anagrpmax)?;
    text.extend_from_slice(b"end\n")?;
    Ok(text)
}
