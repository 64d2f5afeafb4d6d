//! Requests in the order of their numbers.

ghost use Rattle.std.specs.Prelude.{◌≡◌, ◌<◌, OnOk, map};
ghost use Rattle.std.specs.List.Sorted.{IsPermutation};
ghost use Rattle.mp_words.specs.Request.{asked_of};
ghost use Rattle.mp_script.specs.Distinct.{IsDistinct};
ghost use Rattle.mp_legal.specs.Gathering.{AreNumbered};

use crate::gather_error::GatherError;
use mp_words::numbered::Numbered;
use mp_words::request::Request;

/// The number of a request.
fn number_of(request: &Request) -> u32
    ensures { result ≡ request.now.id }
{
    request.id().get()
}

/// Puts the requests in the order of their numbers.
pub fn put_in_order(requests: &mut Vec<Request>) -> Result<(), GatherError>
    requires { IsDistinct (map (λ r. r.id) requests.old.items) }
    ensures same { IsPermutation requests.old.items requests.new.items }
    ensures numbered { OnOk result (AreNumbered (map asked_of requests.new.items)) }
{
    requests.sort_by_key(|request| number_of(request))?;
    Ok(())
}
