//! What a run says of itself, line by line.

use mp_words::entry::Grace;
use mp_words::note::Note;
use mp_words::numbers::{ReqId, Slot};
use mp_words::row::CState;
use mp_words::trying::{Back, TryEnd};

/// What a line of a lane says of itself.
///
/// The fields are those of the line's text, in its order. The first of `Page` is the number of the refusal, from 1
/// to 6.
#[derive(Clone, Copy)]
pub enum Said {
    Submit,
    Finish(u32),
    Requeue(u32),
    Changed(Slot, u32),
    Refused(Slot, u32, CState),
    NotArmed(Slot, u32),
    NoPath(u32),
    Page(u8, u32),
    Added(Slot, u32, u32),
    Already(Slot),
    NoSlot,
    OrderFull,
    Marked(Slot, u32),
    Idle,
    Freed(Slot, u32, u32),
    AgainSection(Slot, Grace, u8, u32),
    AgainDepth(Slot, u32),
    Policy(u32),
}

/// What one line of a lane's block tells: a section, a line of the script or a round of the drain, a try of a
/// request, or the end of a try's flight.
///
/// A section that found another version of a row has that row's slot and version in `moved`. Line 0 is the end of a
/// lane, and the drain. A `Fin` has the first `count` of its `statuses`, from 1 to 6, and how the request came back,
/// where it did.
#[derive(Clone, Copy)]
pub enum Event {
    Sec {
        note: Note,
        moved: Option<(Slot, u32)>,
    },
    At {
        line: u32,
        said: Said,
    },
    Try {
        req: ReqId,
        hop: u32,
        end: TryEnd,
    },
    Fin {
        req: ReqId,
        hop: u32,
        statuses: [u16; 6],
        count: u8,
        back: Option<Back>,
    },
}
