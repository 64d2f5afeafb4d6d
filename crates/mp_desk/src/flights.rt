//! The requests of a lane that are on their way.

ghost use Rattle.std.specs.Prelude.{◌≡◌, ◌≤◌, ◌<◌, ◌++◌, ◌∷◌, ℕ, [], false, OnOk, Some, length, take, vec_len, vec_capacity};
ghost use Rattle.mp_desk.specs.Indexed.{first_behind, flying, flying_of, is_at, is_there, AreKept, ArePlaced, IsFirst, IsTaken, IsTakenAt};

use crate::flying::Flying;
use crate::full::Full;
use crate::index::Index;
use mp_words::numbers::ReqId;
use std::alloc::Global;
use std::marker::Model;
use std::mem;

/// The requests of a lane that are on their way, in the order sent, each found by its number.
///
/// Once none is left, the places are given back, so going over them costs no more than the sending did. Where a number
/// flies twice, which no script asks for, its flights are found by going over all.
#[derive(Drop)]
pub struct Flights {
    sent: Vec<Option<Flying>>,
    index: Index,
    first: usize,
    count: usize,
    twice: bool,
}

impl Model for Flights {
    ghost use Rattle.std.specs.Prelude.{length, vec_len, vec_capacity, ◌-◌};
    ghost use Rattle.mp_desk.specs.Indexed.{flying, room_of, AreKept, FlightsView};

    ghost Value = { FlightsView };

    ghost view = { λ f. record { flying = flying f.sent.items; spare = room_of (length f.index) (vec_capacity f.sent - vec_len f.sent) } };

    ghost invariant = { λ f. AreKept f.index f.sent.items f.first f.count f.twice };
}

impl Flights {
    /// No flight. It takes no memory.
    pub fn make(alloc: Global) -> Flights
        ensures { result.flying ≡ [] }
    {
        Flights {
            sent: Vec::new(alloc),
            index: Index::make(alloc),
            first: 0,
            count: 0,
            twice: false,
        }
    }

    /// Makes room for one more.
    ///
    /// # Errors
    ///
    /// `NoMemory` where memory runs out. The flights are as they were.
    pub fn reserve(&mut self) -> Result<(), Full>
        ensures room { OnOk result (1 ≤ self.new.spare) }
        ensures flying { self.new.flying ≡ self.old.flying }
    {
        self.index.reserve()?;
        self.sent.reserve(1).map_err(|_| Full::NoMemory)
    }

    /// Adds a request on its way, for which there is room.
    pub fn push(&mut self, sent: Flying)
        requires { 1 ≤ self.old.spare }
        ensures { self.new.flying ≡ self.old.flying ++ sent ∷ [] }
    {
        let req = sent.req();
        let place = self.sent.len();
        let there = is_at(&self.sent, self.index.at(req), &Some(req));
        if there {
            self.twice = true;
        } else {
            self.index.put(req, place);
        }
        push_some(&mut self.sent, sent);
        self.count += 1;
    }

    /// How many there are of a number, where one is named, or in all.
    pub fn count(&self, named: &Option<ReqId>) -> usize
        ensures { result ≡ length (flying_of named.now self.now.flying) }
    {
        match named {
            None => self.count,
            Some(_) => count_all(&self.sent, &self.index, self.twice, named),
        }
    }

    /// Takes the first of a number, where one is named, or of all.
    pub fn take(&mut self, named: &Option<ReqId>) -> Option<Flying>
        ensures { IsTaken named.now result self.old.flying self.new.flying }
    {
        let place = place_of(&self.sent, &self.index, self.first, self.twice, named);
        let taken = taken_at(&mut self.sent, place, named)?;
        self.count -= 1;
        self.first = first_behind(named, self.first, place);
        if self.count == 0 {
            self.sent.clear();
            self.first = 0;
            self.twice = false;
        }
        Some(taken)
    }
}

/// Adds one at the end, for which there is room.
fn push_some(places: &mut Vec<Option<Flying>>, sent: Flying)
    requires { vec_len places.old < vec_capacity places.old }
    ensures { places.new.items ≡ places.old.items ++ Some sent ∷ [] }
{
    places.push_reserved(Some(sent));
}

/// The place of the first of a number, where one is named, or of all.
fn place_of(
    sent: &[Option<Flying>],
    index: &Index,
    first: usize,
    twice: bool,
    named: &Option<ReqId>,
) -> usize
    requires kept { (count : ℕ) × AreKept index.now sent.now first count twice }
    ensures { IsFirst named.now sent.now result }
{
    match named {
        None => place_from(sent, first, named),
        Some(req) => {
            if twice {
                place_from(sent, 0, named)
            } else {
                index.at(*req)
            }
        }
    }
}

/// Takes the one at a place, where a flight of the number stands there.
fn taken_at(sent: &mut Vec<Option<Flying>>, place: usize, named: &Option<ReqId>) -> Option<Flying>
    ensures { IsTakenAt named.now place sent.old.items sent.new.items result }
{
    if is_at(sent, place, named) {
        mem::replace(&mut sent[place], None)
    } else {
        None
    }
}

/// The first place once one is taken: behind it, where it was the first of all.
fn first_behind(named: &Option<ReqId>, first: usize, place: usize) -> usize
    requires { place < 18446744073709551615 }
    ensures { result ≡ first_behind named.now first place }
{
    match named {
        None => place + 1,
        Some(_) => first,
    }
}

/// Whether a flight of the number is there.
fn is_there(named: &Option<ReqId>, place: &Option<Flying>) -> bool
    ensures { result ≡ is_there named.now place.now }
{
    match place {
        None => false,
        Some(flying) => match named {
            None => true,
            Some(req) => flying.flight.req.get() == req.get(),
        },
    }
}

/// Whether a flight of the number stands at a place.
fn is_at(sent: &[Option<Flying>], place: usize, named: &Option<ReqId>) -> bool
    ensures { result ≡ is_at sent.now place named.now }
{
    match sent.get(place) {
        Some(found) => is_there(named, found),
        None => false,
    }
}

/// The first place from one on at which a flight of the number stands, or behind all.
fn place_from(sent: &[Option<Flying>], first: usize, named: &Option<ReqId>) -> usize
    requires before { flying_of named.now (flying (take first sent.now)) ≡ [] }
    requires within { first ≤ length sent.now }
    ensures { IsFirst named.now sent.now result }
{
    for place in first..sent.len() {
        if is_at(sent, place, named) {
            return place;
        }
    }
    sent.len()
}

/// How many flights of the number are there.
fn count_all(sent: &[Option<Flying>], index: &Index, twice: bool, named: &Option<ReqId>) -> usize
    requires placed { twice ≡ false → ArePlaced index.now 0 sent.now }
    ensures { result ≡ length (flying_of named.now (flying sent.now)) }
{
    if let Some(req) = named {
        if !twice {
            return usize::from(is_at(sent, index.at(*req), named));
        }
    }
    let mut count = 0;
    for place in sent {
        if is_there(named, place) {
            count += 1;
        }
    }
    count
}
