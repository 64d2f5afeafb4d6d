//! What a status asks for.

ghost use Rattle.std.specs.Prelude.{◌≡◌};
ghost use Rattle.mp_status.specs.Disposition.{disposition_of, must_not_retry, is_path_related, is_ana};

use crate::class::Class;
use crate::statuses::{
    INACCESSIBLE, MOST_RETRIES, PATH_RELATED, PERSISTENT_LOSS, SUCCESS, TRANSITION,
};

/// What a status asks for after so many retries on its path. The first of these decides: status 0 completes; the
/// do-not-retry bit completes; five or more retries already made complete; a status of type 3 fails over; any other is
/// retried on the same path. A failover is by an ANA status where bits 10 to 0 are 301h, 302h or 303h.
pub fn class(status: u16, retries: u8) -> Class
    ensures { result ≡ disposition_of status retries }
{
    if status == SUCCESS || must_not_retry(status) || retries >= MOST_RETRIES {
        Class::Complete
    } else if is_path_related(status) {
        Class::Failover {
            ana: is_ana(status),
        }
    } else {
        Class::Retry
    }
}

/// Whether the do-not-retry bit is set.
fn must_not_retry(status: u16) -> bool
    ensures { result ≡ must_not_retry status }
{
    status / 0x4000 % 2 == 1
}

/// Whether the status is of the type of a path's statuses.
fn is_path_related(status: u16) -> bool
    ensures { result ≡ is_path_related status }
{
    status / 0x100 % 8 == PATH_RELATED
}

/// Whether the status is one of the three by which a path tells its ANA state.
fn is_ana(status: u16) -> bool
    ensures { result ≡ is_ana status }
{
    let kind = status % 0x800;
    kind == PERSISTENT_LOSS || kind == INACCESSIBLE || kind == TRANSITION
}
