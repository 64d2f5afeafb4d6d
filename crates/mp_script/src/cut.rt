//! A line that was cut from a text.

use crate::numbers::Numbers;
use crate::shapes::LineShape;

/// What the words of a line are, the numbers of two of them, and the lines behind it.
#[derive(Drop)]
pub(crate) struct Cut<'a> {
    pub(crate) line: LineShape<'a>,
    pub(crate) numbers: Numbers,
    pub(crate) rest: &'a [u8],
}
