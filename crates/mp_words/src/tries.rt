//! The tries of a request.

ghost use Rattle.std.specs.Prelude.{◌≡◌, ◌≤◌, ◌<◌, ◌+◌, ◌++◌, ◌∷◌, [], IfSome, OnOk, OnErr, Some, None, length, map, max, take, vec_len, vec_capacity, slice_get};
ghost use Rattle.std.specs.List.{last_or};
ghost use Rattle.mp_words.specs.KeptTry.{told, as_again, IsAgain};
ghost use Rattle.mp_words.specs.Like.{Tells};
ghost use Rattle.mp_words.specs.Request.{outcome_of, attempts_of, tried_of, ended_tries, done_with};
ghost use Rattle.mp_words.specs.declared.trying.TryEnd.TheVariants as end;

use crate::entry::RowEntry;
use crate::keeps::Keeps;
use crate::kept_try::KeptTry;
use crate::like::is_like;
use crate::note::Note;
use crate::op::{Gift, Maker, Op};
use crate::order::Order;
use crate::reading::Reading;
use crate::row::{CState, Policy, Row};
use crate::trying::{Back, Outcome, Try, TryEnd};
use std::alloc::{AllocError, Global};
use std::marker::Model;

/// Below so many whole tries the room for one more is just that: most requests are tried once.
const FEW: usize = 4;

/// The tries of a request, in order.
///
/// A try that is listed, and is like the last whole one, is kept by its number and its ticket alone.
#[derive(Drop)]
pub struct Tries {
    kept: Keeps,
    whole: Vec<Try>,
}

impl Model for Tries {
    ghost use Rattle.std.specs.Prelude.{◌≤◌, ◌-◌, length, map, min, vec_len, vec_capacity};
    ghost use Rattle.mp_words.specs.KeptTry.{told, AreFit};
    ghost use Rattle.mp_words.specs.TriesView.{TriesView};

    ghost Value = { TriesView };

    ghost view = { λ t. record { items = map (told t.whole.items) t.kept.items; spare = min (min t.kept.spare (67108864 - length t.kept.items)) (vec_capacity t.whole - vec_len t.whole) } };

    ghost invariant = { λ t. AreFit (vec_len t.whole) 0 t.kept.items × (length t.kept.items ≤ 67108864) };
}

impl Tries {
    /// No try. It takes no memory.
    pub(crate) fn make(alloc: Global) -> Tries
        ensures items { result.items ≡ [] }
        ensures most { length result.items + result.spare ≤ 67108864 }
    {
        Tries {
            kept: Keeps::make(alloc),
            whole: Vec::new(alloc),
        }
    }

    /// Makes room for one more.
    ///
    /// # Errors
    ///
    /// Where memory runs out, and never where there was room. The tries are as they were.
    pub(crate) fn reserve(&mut self) -> Result<(), AllocError>
        requires { length self.old.items < 67108864 }
        ensures room { OnOk result (1 ≤ self.new.spare) }
        ensures kept { self.old.spare ≤ self.new.spare }
        ensures cause { OnErr result (self.old.spare ≡ 0) }
        ensures items { self.new.items ≡ self.old.items }
        ensures most { length self.new.items + self.new.spare ≤ 67108864 }
    {
        self.kept.reserve()?;
        reserve_one(&mut self.whole)
    }

    /// Adds a try at the end. It takes no memory.
    pub(crate) fn push(&mut self, made: Try)
        requires { 1 ≤ self.old.spare }
        ensures items { self.new.items ≡ self.old.items ++ made ∷ [] }
        ensures room { self.old.spare ≤ self.new.spare + 1 }
        ensures most { length self.new.items + self.new.spare ≤ 67108864 }
    {
        // The proof of a push needs each type inside a try named here.
        let _: (Option<TryEnd>, Option<Back>, Option<RowEntry>) = (None, None, None);
        let _: (Option<Order>, Option<Row>, Option<Reading>) = (None, None, None);
        let _: (Option<Note>, Option<Op>, Option<Maker>) = (None, None, None);
        let _: (Option<CState>, Option<Policy>, Option<Gift>) = (None, None, None);
        let _: Option<KeptTry> = None;
        match again_of(self.whole.as_slice(), &made) {
            Some(kept) => self.kept.push(kept),
            None => {
                let place = self.whole.len() as u32;
                self.whole.push_reserved(made);
                self.kept.push(KeptTry::Whole(place));
            }
        }
    }

    /// Writes the statuses of the attempts into the last try, which is sent, and how the request came back.
    pub(crate) fn end_last(&mut self, statuses: [u16; 6], count: u8, back: Option<Back>)
        requires { outcome_of (last_or None (map tried_of self.old.items)) ≡ Outcome.Sent }
        ensures items { self.new.items ≡ ended_tries statuses count back self.old.items }
        ensures room { self.new.spare ≡ self.old.spare }
        ensures most { length self.new.items + self.new.spare ≤ 67108864 }
    {
        end_last(&mut self.whole, statuses, count, back);
    }

    /// How many there are.
    pub fn len(&self) -> usize
        ensures { result ≡ length self.now.items }
    {
        self.kept.len()
    }

    /// The try at this place, counted from 0.
    pub fn at(&self, place: usize) -> Try
        requires { place < length self.now.items }
        ensures { slice_get self.now.items place ≡ Some result }
    {
        match self.kept.at(place) {
            KeptTry::Whole(place) => self.whole[place as usize],
            KeptTry::Again { hop, ticket, like } => again(hop, ticket, &self.whole[like as usize]),
        }
    }

    /// The last try.
    pub fn last(&self) -> Option<Try>
        ensures { result ≡ last_or None self.now.items }
    {
        let len = self.len();
        if len == 0 {
            None
        } else {
            Some(self.at(len - 1))
        }
    }

    /// How the try at this place ended. It costs less than the try.
    pub fn end_at(&self, place: usize) -> TryEnd
        requires { place < length self.now.items }
        ensures { IfSome (slice_get self.now.items place) (λ t. result ≡ t.end) }
    {
        match self.kept.at(place) {
            KeptTry::Whole(place) => self.whole[place as usize].end,
            KeptTry::Again { .. } => TryEnd::Listed,
        }
    }

    /// How many statuses the try at this place has. It costs less than the try.
    pub fn count_at(&self, place: usize) -> u8
        requires { place < length self.now.items }
        ensures { IfSome (slice_get self.now.items place) (λ t. result ≡ t.count) }
    {
        match self.kept.at(place) {
            KeptTry::Whole(place) => self.whole[place as usize].count,
            KeptTry::Again { .. } => 0,
        }
    }

    /// The last try, where it is kept whole: only a listed one isn't. It costs less than the try.
    pub fn last_whole(&self) -> Option<&Try>
        ensures last { IfSome result (λ t. last_or None self.now.items ≡ Some t.now) }
        ensures listed { result ≡ None → IfSome (last_or None self.now.items) (λ t. t.end ≡ end.Listed) }
    {
        match self.kept.last() {
            Some(KeptTry::Whole(place)) => Some(&self.whole[place as usize]),
            Some(KeptTry::Again { .. }) => None,
            None => None,
        }
    }

    /// How many attempts were made: at most six a try.
    pub fn attempts(&self) -> u32
        ensures count { result ≡ attempts_of (map tried_of self.now.items) }
        ensures most { result ≤ 402653184 }
    {
        // A try that is like another made none.
        attempts_in(self.whole.as_slice())
    }

    /// How a request with these tries stands.
    pub fn outcome(&self) -> Outcome
        ensures { result ≡ outcome_of (last_or None (map tried_of self.now.items)) }
    {
        match self.kept.last() {
            None => Outcome::Waiting,
            Some(KeptTry::Again { .. }) => Outcome::Waiting,
            Some(KeptTry::Whole(place)) => outcome_after(&self.whole[place as usize]),
        }
    }
}

/// Makes room for one more: the first few get just their room.
fn reserve_one(whole: &mut Vec<Try>) -> Result<(), AllocError>
    ensures items { whole.new.items ≡ whole.old.items }
    ensures len { vec_len whole.new ≡ vec_len whole.old }
    ensures room { OnOk result (vec_len whole.new + 1 ≤ vec_capacity whole.new) }
    ensures kept { vec_capacity whole.old ≤ vec_capacity whole.new }
    ensures cause { OnErr result (vec_capacity whole.old < vec_len whole.old + 1) }
    ensures exact { vec_len whole.old < 4 → OnOk result (vec_capacity whole.new ≡ max (vec_capacity whole.old) (vec_len whole.old + 1)) }
{
    if whole.len() < FEW {
        whole.reserve_exact(1)
    } else {
        whole.reserve(1)
    }
}

/// The try in few bytes, where it is listed and is like the last whole one.
fn again_of(whole: &[Try], made: &Try) -> Option<KeptTry>
    requires { length whole.now ≤ 67108864 }
    ensures told { IfSome result (λ k. told whole.now k ≡ made.now) }
    ensures again { IfSome result (IsAgain (length whole.now)) }
    ensures exact { result ≡ None → IfSome (last_or None whole.now) (λ t. as_again made.now.hop made.now.note.ticket t ≡ made.now → ⊥) }
{
    let last = whole.last()?;
    if is_again(last, made) {
        Some(KeptTry::Again {
            hop: made.hop,
            ticket: made.note.ticket,
            like: whole.len() as u32 - 1,
        })
    } else {
        None
    }
}

/// Whether a try is listed, and is like another but for its number and its ticket.
fn is_again(like: &Try, made: &Try) -> bool
    ensures { Tells result (as_again made.now.hop made.now.note.ticket like.now) made.now }
{
    let TryEnd::Listed = made.end else {
        return false;
    };
    let None = made.back else {
        return false;
    };
    made.count == 0 && like.statuses == made.statuses && is_like(&like.note, &made.note)
}

/// A listed try with this number, and otherwise as another try but for the ticket.
fn again(hop: u32, ticket: u32, like: &Try) -> Try
    ensures { result ≡ as_again hop ticket like.now }
{
    let mut note = like.note;
    note.ticket = ticket;
    Try {
        hop,
        end: TryEnd::Listed,
        note,
        statuses: like.statuses,
        count: 0,
        back: None,
    }
}

/// How a request stands after this try.
fn outcome_after(last: &Try) -> Outcome
    ensures { result ≡ outcome_of (Some (tried_of last.now)) }
{
    match last.end {
        TryEnd::Listed => Outcome::Waiting,
        TryEnd::Failed => Outcome::Failed,
        TryEnd::Sent(_, _) => match last.back {
            Some(_) => Outcome::Waiting,
            None => done_with(&last.statuses, last.count),
        },
    }
}

/// How a sent request stands that didn't come back, by the statuses of which the first `count` count.
fn done_with(statuses: &[u16; 6], count: u8) -> Outcome
    ensures { result ≡ done_with (last_or None (take count statuses.now)) }
{
    let count = usize::from(count).min(6);
    if count == 0 {
        Outcome::Sent
    } else {
        Outcome::Done(statuses[count - 1])
    }
}

/// How many attempts a try made.
fn count_of(made: &Try) -> u32
    ensures count { result ≡ length (tried_of made.now).statuses }
    ensures most { result ≤ 6 }
{
    u32::from(made.count.min(6))
}

/// How many attempts these tries made.
fn attempts_in(tries: &[Try]) -> u32
    requires { length tries.now ≤ 67108864 }
    ensures count { result ≡ attempts_of (map tried_of tries.now) }
    ensures most { result ≤ 402653184 }
{
    let mut attempts = 0u32;
    for made in tries {
        attempts += count_of(made);
    }
    attempts
}

/// Writes into the last try how it ended.
fn end_last(tries: &mut Vec<Try>, statuses: [u16; 6], count: u8, back: Option<Back>)
    requires { 1 ≤ vec_len tries.old }
    ensures tries { tries.new.items ≡ ended_tries statuses count back tries.old.items }
    ensures length { vec_len tries.new ≡ vec_len tries.old }
    ensures capacity { vec_capacity tries.new ≡ vec_capacity tries.old }
{
    let last = tries.len() - 1;
    let made = &mut tries[last];
    made.statuses = statuses;
    made.count = count;
    made.back = back;
}
