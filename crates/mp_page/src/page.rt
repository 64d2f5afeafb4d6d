//! What a log page says, and why bytes are none.
ghost use Rattle.std.specs.Prelude.{◌≡◌};
ghost use Rattle.mp_page.specs.declared.page.PageError.TheVariants.{NoMemory};

use sqlite_items::Items;
use std::alloc::{AllocError, AllocFailed};
use thiserror::Error;

/// One ANA group descriptor: the group, its state, and the namespaces that it names.
///
/// `id` is the ANA group identifier, from 1. `changes` is the group's change count. `state` is the ANA state, from 1 to
/// 15: 1 is optimized, 2 non-optimized, 3 inaccessible, 4 persistent loss and 15 change. `nsids` are the namespace
/// identifiers, in the order of the page.
#[derive(Drop)]
pub struct Group {
    pub id: u32,
    pub changes: u64,
    pub state: u8,
    pub nsids: Items<u32>,
}

/// A log page: its change count and its descriptors, in order.
#[derive(Drop)]
pub struct Page {
    pub changes: u64,
    pub groups: Items<Group>,
}

/// Why bytes are no page. The number is the offset, in bytes, of the header or of the descriptor.
#[derive(Clone, Copy, Debug, Error)]
pub enum PageError {
    #[error("the header at byte {0} is cut short: a page has at least 16 bytes")]
    ShortHeader(u32),
    #[error("the descriptor at byte {0} is cut short: a descriptor has 32 bytes")]
    ShortDescriptor(u32),
    #[error("the descriptor at byte {0} is of group 0: a group identifier is at least 1")]
    GroupZero(u32),
    #[error("the descriptor at byte {0} is of a group above ANAGRPMAX")]
    GroupAbove(u32),
    #[error("the descriptor at byte {0} has no ANA state: a state is from 1 to 15")]
    StateBad(u32),
    #[error("the list of the descriptor at byte {0} is cut short: an identifier has 4 bytes")]
    ShortList(u32),
    #[error("out of memory")]
    NoMemory,
}

impl From<AllocError> for PageError {
    ghost from_gives = { λ _ e. e ≡ NoMemory };

    fn from(_e: AllocError) -> PageError {
        PageError::NoMemory
    }
}

impl<T: Drop> From<AllocFailed<T>> for PageError {
    ghost from_gives = { λ _ e. e ≡ NoMemory };

    fn from(_e: AllocFailed<T>) -> PageError {
        PageError::NoMemory
    }
}
