//! Reads a log page.
ghost use Rattle.std.specs.Prelude.{◌≡◌, ◌≤◌, ◌*◌, ◌+◌, length, IfOk, IfErr, Ok, Some};
ghost use Rattle.mp_checks.specs.Checks.{Answers, Reads, first_fault};
ghost use Rattle.mp_page.specs.Page.{numbers, group_of, groups_of, group_checks, groups_checks, page_checks, page_of, page_in};
ghost use Rattle.mp_page.specs.Grammar.{IsPage};
ghost use Rattle.mp_page.specs.Written.{CanWritePage};

use crate::numbers::{u16_at, u32_at, u64_at};
use crate::page::{Group, Page, PageError};
use sqlite_items::Items;
use std::alloc::{AllocError, Global};

fn numbers_at(
    alloc: Global,
    count: usize,
    place: usize,
    bytes: &[u8],
) -> Result<Items<u32>, AllocError>
    requires { place + 4 * count ≤ length bytes.now }
    ensures { IfOk result (λ ns. ns ≡ numbers count place bytes.now) }
{
    let mut found = Vec::new(alloc);
    for i in 0..count {
        found.push(u32_at(place + 4 * i, bytes))?;
    }
    Ok(Items::from_vec(found))
}

fn group_at(alloc: Global, max: u32, offset: u32, rest: &[u8]) -> Result<Group, PageError>
    ensures { Reads PageError.NoMemory result (group_checks max offset rest.now) (group_of rest.now) }
{
    if rest.len() < 32 {
        return Err(PageError::ShortDescriptor(offset));
    }
    let id = u32_at(0, rest);
    if id == 0 {
        return Err(PageError::GroupZero(offset));
    }
    if id > max {
        return Err(PageError::GroupAbove(offset));
    }
    let state = rest[16];
    if state == 0 || state > 15 {
        return Err(PageError::StateBad(offset));
    }
    let count = u32_at(4, rest) as usize;
    if rest.len() < 32 + 4 * count {
        return Err(PageError::ShortList(offset));
    }
    let changes = u64_at(8, rest);
    let nsids = numbers_at(alloc, count, 32, rest)?;
    Ok(Group {
        id,
        changes,
        state,
        nsids,
    })
}

fn groups_at(alloc: Global, max: u32, count: u16, bytes: &[u8]) -> Result<Items<Group>, PageError>
    requires { length bytes.now ≤ 65520 }
    ensures { Reads PageError.NoMemory result (groups_checks max count 16 bytes.now) (groups_of count bytes.now) }
{
    let mut groups = Vec::new(alloc);
    let mut rest = bytes;
    let mut offset = 16u32;
    for _ in 0..count {
        let group = group_at(alloc, max, offset, rest)?;
        let size = 32 + 4 * group.nsids.len();
        groups.push(group)?;
        let (_, after) = rest.split_at(size);
        rest = after;
        offset += size as u32;
    }
    Ok(Items::from_vec(groups))
}

fn checked_page(alloc: Global, bytes: &[u8], anagrpmax: u32) -> Result<Page, PageError>
    requires { length bytes.now ≤ 65536 }
    ensures { Reads PageError.NoMemory result (page_checks anagrpmax bytes.now) (page_of bytes.now) }
{
    if bytes.len() < 16 {
        return Err(PageError::ShortHeader(0));
    }
    let changes = u64_at(0, bytes);
    let count = u16_at(8, bytes);
    let (_, rest) = bytes.split_at(16);
    let groups = groups_at(alloc, anagrpmax, count, rest)?;
    Ok(Page { changes, groups })
}

/// Reads log page 0Ch, of at most 65,536 bytes, from a controller whose greatest ANA group identifier is `anagrpmax`.
/// Reserved bytes, and bytes after the last descriptor, are not looked at.
///
/// # Errors
///
/// The first check that fails, with the offset of the header or descriptor that it is about. `ShortHeader`: the page
/// has fewer than 16 bytes. Then of each descriptor in turn: `ShortDescriptor`, its 32 bytes don't fit; `GroupZero`,
/// its group is 0; `GroupAbove`, its group is above `anagrpmax`; `StateBad`, its state is 0 or above 15; `ShortList`,
/// its list of namespaces doesn't fit. `NoMemory` where memory runs out.
pub fn read_page(alloc: Global, bytes: &[u8], anagrpmax: u32) -> Result<Page, PageError>
    requires { length bytes.now ≤ 65536 }
    // What is read is a page of these bytes.
    ensures found { IfOk result (IsPage anagrpmax bytes.now) }
    // Where the bytes are a page, that page is read, unless memory runs out.
    ensures only { (page : Page) → IsPage anagrpmax bytes.now page → Answers PageError.NoMemory result (Ok page) }
    // Which refusal it is: that of the first check that fails.
    ensures refused { IfErr result (λ e. (e ≡ PageError.NoMemory → ⊥) → first_fault (page_checks anagrpmax bytes.now) ≡ Some e) }
    // The same as one function of the bytes.
    ensures gives { Answers PageError.NoMemory result (page_in anagrpmax bytes.now) }
    // What is read can be written.
    ensures writable { IfOk result CanWritePage }
{
    checked_page(alloc, bytes, anagrpmax)
}
