//! A request with its tries.

ghost use Rattle.std.specs.Prelude.{◌≡◌, ◌≤◌, ◌+◌, ◌++◌, ◌∷◌, [], OnOk, OnErr, Err, None, length};
ghost use Rattle.std.specs.List.{last_or};
ghost use Rattle.mp_words.specs.Request.{outcome_of, attempts_of, asked_of, ended_tries};

use crate::numbered::Numbered;
use crate::numbers::{Node, ReqId};
use crate::tries::Tries;
use crate::trying::{Back, Outcome, Try};
use std::alloc::Global;
use std::marker::Model;
use thiserror::Error;

/// The most tries that a request may have.
const MOST_TRIES: usize = 67_108_864;

/// Why no room was made for a try.
#[derive(Clone, Copy, Debug, Error)]
pub enum SubmitError {
    #[error("out of memory")]
    NoMemory,
}

/// A request of the script: its number, the node that it was submitted on, and its tries so far.
#[derive(Drop)]
pub struct Request {
    id: ReqId,
    node: Node,
    attempts: u32,
    tries: Tries,
}

impl Model for Request {
    ghost use Rattle.std.specs.Prelude.{◌≡◌, ◌≤◌, ◌+◌, length, map};
    ghost use Rattle.std.specs.List.{AllByRecursion};
    ghost use Rattle.mp_words.specs.Request.{attempts_of, tried_of, IsShort};
    ghost use Rattle.mp_words.specs.RequestView.{RequestView};

    ghost Value = { RequestView };

    ghost view = { λ r. record { id = r.id; node = r.node; tries = r.tries.items; spare = r.tries.spare } };

    ghost invariant = { λ r. (length r.tries.items + r.tries.spare ≤ 67108864) × (r.attempts ≡ attempts_of (map tried_of r.tries.items)) × AllByRecursion IsShort r.tries.items };
}

impl Request {
    /// A request without tries. It takes no memory.
    pub fn make(alloc: Global, id: ReqId, node: Node) -> Request
        ensures id { result.id ≡ id }
        ensures node { result.node ≡ node }
        ensures tries { result.tries ≡ [] }
    {
        Request {
            id,
            node,
            attempts: 0,
            tries: Tries::make(alloc),
        }
    }

    /// Makes room for one more try. A request has at most 67,108,864 tries.
    ///
    /// # Errors
    ///
    /// `NoMemory` where memory runs out, and never where there was room; always where the request has 67,108,864
    /// tries. The request is as it was but for its room.
    pub fn reserve(&mut self) -> Result<(), SubmitError>
        ensures room { OnOk result (1 ≤ self.new.spare) }
        ensures kept { self.old.spare ≤ self.new.spare }
        ensures cause { OnErr result (self.old.spare ≡ 0) }
        ensures id { self.new.id ≡ self.old.id }
        ensures node { self.new.node ≡ self.old.node }
        ensures tries { self.new.tries ≡ self.old.tries }
        ensures full { length self.old.tries ≡ 67108864 → result ≡ Err SubmitError.NoMemory }
        ensures most { length self.new.tries + self.new.spare ≤ 67108864 }
    {
        if self.tries.len() == MOST_TRIES {
            return Err(SubmitError::NoMemory);
        }
        self.tries.reserve().map_err(|_| SubmitError::NoMemory)
    }

    /// The tries, in order, at most 67,108,864, and fewer where there is room for one more.
    pub fn tries(&self) -> &Tries
        ensures tries { result.now.items ≡ self.now.tries }
        ensures most { length self.now.tries + self.now.spare ≤ 67108864 }
    {
        &self.tries
    }

    /// The number of the next try: the first has the number 1.
    pub fn next(&self) -> u32
        ensures { result ≡ length self.now.tries + 1 }
    {
        self.tries.len() as u32 + 1
    }

    /// The node that it was submitted on, on which a requeue submits it again.
    pub fn node(&self) -> Node
        ensures { result ≡ self.now.node }
    {
        self.node
    }

    /// How many attempts were made: at most six a try.
    pub fn attempts(&self) -> u32
        ensures count { result ≡ attempts_of (asked_of self.now).tries }
        ensures most { result ≤ 402653184 }
    {
        self.attempts
    }

    /// How the request stands: it waits without tries, after a listed try and after one that came back.
    pub fn outcome(&self) -> Outcome
        ensures { result ≡ outcome_of (last_or None (asked_of self.now).tries) }
    {
        self.tries.outcome()
    }

    /// Appends a try whose attempts are still to come. It takes no memory.
    pub fn tried(&mut self, made: Try)
        requires room { 1 ≤ self.old.spare }
        requires waiting { outcome_of (last_or None (asked_of self.old).tries) ≡ Outcome.Waiting }
        requires next { made.hop ≡ length self.old.tries + 1 }
        requires count { made.count ≡ 0 }
        requires back { made.back ≡ None }
        ensures tries { self.new.tries ≡ self.old.tries ++ made ∷ [] }
        ensures id { self.new.id ≡ self.old.id }
        ensures node { self.new.node ≡ self.old.node }
        ensures room { self.old.spare ≤ self.new.spare + 1 }
    {
        self.tries.push(made);
    }

    /// Writes the statuses of the attempts into the last try, of which the first `count` count, and how the request
    /// came back.
    pub fn ended(&mut self, statuses: [u16; 6], count: u8, back: Option<Back>)
        requires sent { outcome_of (last_or None (asked_of self.old).tries) ≡ Outcome.Sent }
        requires low { 1 ≤ count }
        requires high { count ≤ 6 }
        ensures tries { self.new.tries ≡ ended_tries statuses count back self.old.tries }
        ensures id { self.new.id ≡ self.old.id }
        ensures node { self.new.node ≡ self.old.node }
        ensures room { self.new.spare ≡ self.old.spare }
    {
        self.attempts += u32::from(count);
        self.tries.end_last(statuses, count, back);
    }
}

/// A request is ready to be listed where it waits.
impl Numbered for Request {
    ghost use Rattle.std.specs.Prelude.{◌≡◌, None};
    ghost use Rattle.std.specs.List.{last_or};
    ghost use Rattle.mp_words.specs.declared.trying.Outcome.TheVariants.{Waiting};
    ghost use Rattle.mp_words.specs.Request.{asked_of, outcome_of};

    ghost number = { λ r. r.id };

    ghost IsReady = { λ r. outcome_of (last_or None (asked_of r).tries) ≡ Waiting };

    fn id(&self) -> ReqId {
        self.id
    }
}
