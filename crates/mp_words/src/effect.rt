//! What an operation makes of a row.

ghost use Rattle.std.specs.Prelude.{◌≡◌, ◌<◌, ◌^◌, ◌+◌};
ghost use Rattle.mp_words.specs.Effect.{effect_of, may_become, going_to, free_row};

use crate::numbers::Ctrl;
use crate::op::{Effect, Op};
use crate::row::{CState, Row};

/// The row of a free slot: nothing but a version.
pub fn free_row(version: u32) -> Row
    ensures { result ≡ free_row version }
{
    Row {
        version,
        ctrl: Ctrl::make(0).unwrap(),
        cstate: CState::New,
        state: 0,
        pending: false,
        ready: false,
        armed: false,
        marked: false,
        ana: false,
    }
}

/// Whether a controller may go to the first state from the second.
fn may_become(to: CState, from: CState) -> bool
    ensures { result ≡ may_become to from }
{
    match to {
        CState::New => false,
        CState::Live => matches!(from, CState::New | CState::Resetting | CState::Connecting),
        CState::Resetting => matches!(from, CState::New | CState::Live),
        CState::Connecting => matches!(from, CState::New | CState::Resetting),
        CState::Deleting => matches!(from, CState::Live | CState::Resetting | CState::Connecting),
        CState::DeletingNoio => matches!(from, CState::Deleting | CState::Dead),
        CState::Dead => matches!(from, CState::Deleting),
    }
}

/// The controller goes to this state, where it may.
fn going_to(to: CState, row: Row) -> Effect
    requires { row.version + 1 < 2 ^ 32 }
    ensures { result ≡ going_to to row }
{
    let from = row.cstate;
    if may_become(to, from) {
        let mut next = row;
        next.version = row.version + 1;
        next.cstate = to;
        Effect::Changed(next)
    } else {
        Effect::Refused(from)
    }
}

/// What an operation makes of a row, whose version is below the greatest u32:
///
/// - `Log` takes a stated ANA state, which clears pending, and arms or disarms as the page says.
/// - `Ctrl` goes to the controller state where the controller may go there from its own; armed stays.
/// - `Expire` of an armed row goes to resetting where the controller may, and disarms.
/// - `Pending` sets pending, and `Mark` sets marked and takes ready away.
/// - `Give` makes a live, ready and unmarked path, and `Free` leaves nothing but the version.
///
/// `Changed` has the next version. `NotArmed` comes exactly on `Expire` of a row that isn't armed. `Refused`, with the
/// state that the row has, comes exactly where the controller may not go there.
pub fn effect(row: Row, op: Op) -> Effect
    requires { row.version + 1 < 2 ^ 32 }
    ensures { result ≡ effect_of row op }
{
    let mut next = row;
    next.version = row.version + 1;
    match op {
        Op::Log { state, changing } => {
            match state {
                Some(state) => {
                    next.state = state;
                    next.pending = false;
                }
                None => {}
            }
            next.armed = changing;
            Effect::Changed(next)
        }
        Op::Ctrl(to) => going_to(to, row),
        Op::Expire => {
            if row.armed {
                let mut disarmed = row;
                disarmed.armed = false;
                going_to(CState::Resetting, disarmed)
            } else {
                Effect::NotArmed
            }
        }
        Op::Pending => {
            next.pending = true;
            Effect::Changed(next)
        }
        Op::Give(gift) => Effect::Changed(Row {
            version: row.version + 1,
            ctrl: gift.ctrl,
            cstate: CState::Live,
            state: gift.state,
            pending: gift.pending,
            ready: true,
            armed: gift.armed,
            marked: false,
            ana: gift.ana,
        }),
        Op::Mark => {
            next.marked = true;
            next.ready = false;
            Effect::Changed(next)
        }
        Op::Free => Effect::Changed(free_row(row.version + 1)),
    }
}
