//! What a log page does to a path.

ghost use Rattle.std.specs.Prelude.{◌≡◌};
ghost use Rattle.mp_words.specs.declared.op.Op.TheVariants as kind;
ghost use Rattle.mp_page.specs.Gifts as said;

use mp_page::{Page, changing, state_for};
use mp_words::op::Op;

/// What a log page does to the path of its controller to a namespace: Log, with the ANA state of the last descriptor that
/// names the namespace, if one does, and with whether some descriptor is in the state change.
pub fn log_op(page: &Page, nsid: u32) -> Op
    ensures { result ≡ kind.Log (said.state_for page.now nsid) (said.changing page.now) }
{
    Op::Log {
        state: state_for(page, nsid),
        changing: changing(page),
    }
}
