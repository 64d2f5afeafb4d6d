//! The token with which a thread makes a lane's steps.

ghost use Rattle.std.specs.Prelude.{◌≡◌};
ghost use Rattle.mp_core.specs.declared.view.Role.TheVariants as role;

use crate::token::Token;
use mp_words::numbers::LaneId;

/// A lane's token. It borrows nothing, so it may be moved to another thread, and it is never dropped: it comes back by
/// `Shared::join`.
pub struct Pass {
    pub(crate) token: Token,
    pub(crate) lane: LaneId,
    pub ghost named: { token.seat.me.0.role ≡ role.Lane lane },
}
