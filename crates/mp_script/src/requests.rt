//! A set of requests.

ghost use Rattle.std.specs.Prelude.{◌≡◌, ◌++◌, ◌∷◌, [], length, IfOk};
ghost use Rattle.mp_checks.specs.Marks.{has, HaveSame};
ghost use Rattle.mp_script.specs.Requests.{numbers_of};

use mp_words::numbers::ReqId;
use std::alloc::{AllocError, Global};
use std::marker::Model;

/// How many requests there can be.
const REQUESTS: usize = 65_536;

/// A set of requests: a mark for each request that there can be. Contracts see the list of the numbers that are in it,
/// in rising order.
#[derive(Drop)]
pub(crate) struct Requests {
    marks: Vec<bool>,
}

impl Model for Requests {
    ghost use Rattle.std.specs.Prelude.{◌≡◌, ℕ, List, length};
    ghost use Rattle.mp_script.specs.Requests.{numbers_of};

    ghost Value = { List ℕ };

    ghost view = { λ r. numbers_of r.marks.items };

    ghost invariant = { λ r. length r.marks.items ≡ 65536 };
}

impl Requests {
    /// No requests.
    ///
    /// # Errors
    ///
    /// `AllocError` where memory runs out.
    pub(crate) fn make(alloc: Global) -> Result<Requests, AllocError>
        ensures { IfOk result (λ r. r ≡ []) }
    {
        Ok(Requests {
            marks: no_marks(alloc, REQUESTS)?,
        })
    }

    /// Puts a request into the set.
    pub(crate) fn put(&mut self, req: ReqId)
        ensures { HaveSame self.new (self.old ++ req ∷ []) }
    {
        self.marks[req.get() as usize] = true;
    }

    /// Whether the set has a request.
    pub(crate) fn has(&self, req: ReqId) -> bool
        ensures { result ≡ has self.now req }
    {
        self.marks[req.get() as usize]
    }
}

/// So many marks, none of which is set. The number is handed on, since a proof would unfold a list of so many bits at a
/// literal.
#[tactic(auto, using(crate::proofs::Marked::none_marked))]
fn no_marks(alloc: Global, n: usize) -> Result<Vec<bool>, AllocError>
    ensures none { IfOk result (λ v. numbers_of v.items ≡ []) }
    ensures count { IfOk result (λ v. length v.items ≡ n) }
{
    vec![in alloc; false; n]
}
