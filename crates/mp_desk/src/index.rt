//! Where what has a request's number stands.

ghost use Rattle.std.specs.Prelude.{◌≡◌, ◌≤◌, ◌==◌, ℕ, [], OnOk, IfErr, length, slice_index, if◌then◌else◌};

use crate::full::Full;
use mp_words::numbers::ReqId;
use std::alloc::Global;
use std::marker::Model;

/// How many request numbers there are.
const NUMBERS: usize = 65_536;

/// The place of each request number, 0 until one is put.
#[derive(Drop)]
pub struct Index {
    places: Vec<usize>,
}

impl Model for Index {
    ghost use Rattle.std.specs.Prelude.{ℕ, ◌≤◌, List, vec_len};

    ghost Value = { List ℕ };

    ghost view = { λ i. i.places.items };

    ghost invariant = { λ i. vec_len i.places ≤ 65536 };
}

impl Index {
    /// Every place is 0. It takes no memory.
    pub fn make(alloc: Global) -> Index
        ensures { result ≡ [] }
    {
        Index {
            places: Vec::new(alloc),
        }
    }

    /// The place of a number.
    pub fn at(&self, req: ReqId) -> usize
        ensures { result ≡ slice_index self.now req }
    {
        match self.places.as_slice().get(req.get() as usize) {
            Some(place) => *place,
            None => 0,
        }
    }

    /// Makes room for the place of any number.
    ///
    /// # Errors
    ///
    /// `NoMemory` where memory runs out.
    pub fn reserve(&mut self) -> Result<(), Full>
        ensures room { OnOk result (65536 ≤ length self.new) }
        ensures same { (number : ℕ) → slice_index self.new number ≡ slice_index self.old number }
        ensures cause { IfErr result (λ why. why ≡ Full.NoMemory) }
    {
        self.places.resize(NUMBERS, 0)?;
        Ok(())
    }

    /// Puts the place of a number, for which there is room. It takes no memory.
    pub fn put(&mut self, req: ReqId, place: usize)
        requires { 65536 ≤ length self.old }
        ensures { (number : ℕ) → slice_index self.new number ≡ (if number == req then place else slice_index self.old number) }
    {
        self.places[req.get() as usize] = place;
    }
}
