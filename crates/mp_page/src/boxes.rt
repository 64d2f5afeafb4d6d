//! Reads a file of log pages, each in its box.
ghost use Rattle.std.specs.Prelude.{◌≡◌, ◌≤◌, length, map, All, IfOk};
ghost use Rattle.mp_checks.specs.Checks.{Answers, Reads, seen_as};
ghost use Rattle.mp_page.specs.declared.boxes.BoxError.TheVariants.{NoMemory};
ghost use Rattle.mp_page.specs.Boxes.{box_of, box_checks, boxes_of, boxes_checks, boxes_in};

use crate::numbers::u32_at;
use std::alloc::{AllocError, AllocFailed, Global};
use thiserror::Error;

/// The most boxes of a file.
const MOST_BOXES: usize = 1024;

/// The most bytes of a box.
const MOST_BYTES: usize = 65_536;

/// Why bytes are no file of boxes. The number is the offset, in bytes, of the box.
#[derive(Clone, Copy, Debug, Error)]
pub enum BoxError {
    #[error("there are more than 1,024 boxes")]
    TooMany,
    #[error("the box at byte {0} is cut short")]
    ShortBox(u32),
    #[error("the box at byte {0} is longer than 65,536 bytes")]
    LongBox(u32),
    #[error("out of memory")]
    NoMemory,
}

impl From<AllocError> for BoxError {
    ghost from_gives = { λ _ e. e ≡ NoMemory };

    fn from(_e: AllocError) -> BoxError {
        BoxError::NoMemory
    }
}

impl<T: Drop> From<AllocFailed<T>> for BoxError {
    ghost from_gives = { λ _ e. e ≡ NoMemory };

    fn from(_e: AllocFailed<T>) -> BoxError {
        BoxError::NoMemory
    }
}

fn box_at(alloc: Global, offset: u32, rest: &[u8]) -> Result<Vec<u8>, BoxError>
    ensures read { Reads BoxError.NoMemory (seen_as (λ v. v.items) result) (box_checks offset rest.now) (box_of rest.now) }
    ensures short { IfOk result (λ page. length page.items ≤ 65536) }
{
    if rest.len() < 4 {
        return Err(BoxError::ShortBox(offset));
    }
    let size = u32_at(0, rest) as usize;
    if size > MOST_BYTES {
        return Err(BoxError::LongBox(offset));
    }
    let (_, after) = rest.split_at(4);
    if after.len() < size {
        return Err(BoxError::ShortBox(offset));
    }
    let (page, _) = after.split_at(size);
    let page = Vec::from_slice(alloc, page)?;
    Ok(page)
}

fn boxes_at(alloc: Global, most: usize, bytes: &[u8]) -> Result<Vec<Vec<u8>>, BoxError>
    requires { most ≤ 1024 }
    ensures { Reads BoxError.NoMemory (seen_as (λ boxes. map (λ v. v.items) boxes.items) result) (boxes_checks most 0 bytes.now) (boxes_of most bytes.now) }
{
    let mut boxes = Vec::new(alloc);
    let mut rest = bytes;
    let mut offset = 0u32;
    while !rest.is_empty() {
        if boxes.len() == most {
            return Err(BoxError::TooMany);
        }
        let page = box_at(alloc, offset, rest)?;
        let size = 4 + page.len();
        boxes.push(page)?;
        let (_, after) = rest.split_at(size);
        rest = after;
        offset += size as u32;
    }
    Ok(boxes)
}

/// Reads the boxes of a file. A box is its length as four bytes, little endian, and then so many bytes. What stands in a
/// box is not looked at.
///
/// # Errors
///
/// The first check that fails, of each box in turn, with the offset of the box. `TooMany`: 1,024 boxes were read and
/// bytes remain. `ShortBox`: fewer than 4 bytes remain. `LongBox`: the length is above 65,536. `ShortBox` again: fewer
/// bytes remain than the length says. `NoMemory` where memory runs out.
pub fn read_boxes(alloc: Global, bytes: &[u8]) -> Result<Vec<Vec<u8>>, BoxError>
    ensures gives { Answers BoxError.NoMemory (seen_as (λ boxes. map (λ v. v.items) boxes.items) result) (boxes_in bytes.now) }
    // A file has at most 1,024 boxes.
    ensures few { IfOk result (λ boxes. length boxes.items ≤ 1024) }
    // Each box has at most 65,536 bytes.
    ensures pages { IfOk result (λ boxes. All (λ page. length page.items ≤ 65536) boxes.items) }
{
    boxes_at(alloc, MOST_BOXES, bytes)
}
