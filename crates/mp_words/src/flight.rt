//! A request on its way.

use crate::numbers::{LaneId, ReqId, Slot};

/// A request on its way to a path, with the version of the path's usable row by which it was sent.
///
/// A flight is never copied or dropped: each is spent once, by the call that ends it.
pub struct Flight {
    pub slot: Slot,
    pub version: u32,
    pub req: ReqId,
    pub lane: LaneId,
}
