//! The last try of a request.

ghost use Rattle.std.specs.Prelude.{◌≡◌, None, Some};
ghost use Rattle.std.specs.List.{last_or};
ghost use Rattle.mp_words.specs.declared.trying.Try.{Try};

use mp_words::entry::RowEntry;
use mp_words::note::Note;
use mp_words::op::{Gift, Maker, Op};
use mp_words::order::Order;
use mp_words::reading::Reading;
use mp_words::request::Request;
use mp_words::row::{CState, Policy, Row};
use mp_words::trying::{Back, Try, TryEnd};

/// The last try of a request that has one.
pub fn last_of(request: &Request) -> Try
    requires { (made : Try) × (last_or None request.now.tries ≡ Some made) }
    ensures { last_or None request.now.tries ≡ Some result }
{
    // The proof needs each type inside a try named here.
    let _: (Option<TryEnd>, Option<Back>, Option<RowEntry>) = (None, None, None);
    let _: (Option<Order>, Option<Row>, Option<Reading>) = (None, None, None);
    let _: (Option<Note>, Option<Op>, Option<Maker>) = (None, None, None);
    let _: (Option<CState>, Option<Policy>, Option<Gift>) = (None, None, None);
    request.tries().last().unwrap()
}
