//! The token with which a thread makes the keeper's steps.

ghost use Rattle.std.specs.Prelude.{◌≡◌, ◌<◌};
ghost use Rattle.mp_core.specs.declared.view.Role.TheVariants as role;

use crate::token::Token;

/// The one keeper's token. It borrows nothing, so it may be moved to another thread, and it is never dropped: it ends
/// by `Shared::close`.
pub struct KeeperPass {
    pub(crate) token: Token,
    pub(crate) index: u8,
    pub ghost keeps: { token.seat.me.0.role ≡ role.Keeper },
    pub ghost here: { token.seat.me.0.keeping.index ≡ index },
    pub ghost range: { index < 2 },
}
