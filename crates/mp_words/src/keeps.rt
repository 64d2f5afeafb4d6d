//! How the tries of a request are kept.

ghost use Rattle.std.specs.Prelude.{◌≡◌, ◌≤◌, ◌<◌, ◌++◌, ◌∷◌, [], None, Some, OnOk, OnErr, length, slice_get, vec_len, vec_capacity, ◌+◌};
ghost use Rattle.std.specs.List.{last_or};
ghost use Rattle.mp_words.specs.declared.kept_try.KeptTry.TheVariants as how;
ghost use Rattle.mp_words.specs.Keeps.{wholes};
ghost use Rattle.mp_words.specs.Like.{Tells};

use crate::kept_try::KeptTry;
use std::alloc::{AllocError, Global};
use std::marker::Model;

/// How each try of a request is kept, in order.
///
/// As long as each is kept whole they are only counted, which takes no memory.
#[derive(Drop)]
pub(crate) struct Keeps {
    count: u32,
    kept: Vec<KeptTry>,
}

impl Model for Keeps {
    ghost use Rattle.std.specs.Prelude.{◌≤◌, vec_capacity};
    ghost use Rattle.mp_words.specs.Keeps.{kept_in, room_in, AreCounted, KeepsView};

    ghost Value = { KeepsView };

    ghost view = { λ k. record { items = kept_in k.count k.kept.items; spare = room_in k.count (vec_capacity k.kept) } };

    ghost invariant = { λ k. (k.count ≤ 67108864) × AreCounted k.count k.kept.items };
}

impl Keeps {
    /// No try. It takes no memory.
    pub(crate) fn make(alloc: Global) -> Keeps
        ensures { result.items ≡ [] }
    {
        Keeps {
            count: 0,
            kept: Vec::new(alloc),
        }
    }

    /// How many there are.
    pub(crate) fn len(&self) -> usize
        ensures number { result ≡ length self.now.items }
        ensures most { result ≤ 67108864 }
    {
        self.count as usize
    }

    /// How the try at this place is kept.
    pub(crate) fn at(&self, place: usize) -> KeptTry
        requires { place < length self.now.items }
        ensures { slice_get self.now.items place ≡ Some result }
    {
        if self.kept.is_empty() {
            KeptTry::Whole(place as u32)
        } else {
            self.kept[place]
        }
    }

    /// How the last try is kept.
    pub(crate) fn last(&self) -> Option<KeptTry>
        ensures { result ≡ last_or None self.now.items }
    {
        if self.count == 0 {
            None
        } else {
            Some(self.at(self.count as usize - 1))
        }
    }

    /// Makes room for one more.
    pub(crate) fn reserve(&mut self) -> Result<(), AllocError>
        ensures room { OnOk result (1 ≤ self.new.spare) }
        ensures kept { self.old.spare ≤ self.new.spare }
        ensures cause { OnErr result (self.old.spare ≡ 0) }
        ensures items { self.new.items ≡ self.old.items }
    {
        if self.count == 0 {
            Ok(())
        } else if self.kept.is_empty() {
            self.kept.reserve_exact(self.count as usize + 1)
        } else {
            self.kept.reserve(1)
        }
    }

    /// Adds one at the end. It takes no memory.
    pub(crate) fn push(&mut self, one: KeptTry)
        requires room { 1 ≤ self.old.spare }
        requires few { length self.old.items < 67108864 }
        requires first { self.old.items ≡ [] → one ≡ how.Whole 0 }
        ensures items { self.new.items ≡ self.old.items ++ one ∷ [] }
        ensures room { self.old.spare ≤ self.new.spare + 1 }
    {
        if self.kept.is_empty() {
            if is_next(&one, self.count) {
                self.count += 1;
                return;
            }
            fill(&mut self.kept, self.count);
        }
        self.kept.push_reserved(one);
        self.count += 1;
    }
}

/// Whether a try is kept whole behind so many that are.
fn is_next(one: &KeptTry, count: u32) -> bool
    ensures { Tells result one.now (how.Whole count) }
{
    match one {
        KeptTry::Whole(place) => *place == count,
        KeptTry::Again { .. } => false,
    }
}

/// Writes down so many that are kept whole.
fn fill(kept: &mut Vec<KeptTry>, count: u32)
    requires empty { kept.old.items ≡ [] }
    requires few { count ≤ 67108864 }
    requires room { count ≤ vec_capacity kept.old }
    ensures items { kept.new.items ≡ wholes count }
    ensures len { vec_len kept.new ≡ count }
    ensures capacity { vec_capacity kept.new ≡ vec_capacity kept.old }
{
    for place in 0..count {
        kept.push_reserved(KeptTry::Whole(place));
    }
}
