//! The log pages of a world.

ghost use Rattle.std.specs.Prelude.{◌≡◌, length, map, slice_get, option_map};

use std::marker::Model;

/// The bytes of log pages, each in the box of its place, counted from 0. Contracts see the list of the pages' bytes.
#[derive(Drop)]
pub struct Pages {
    boxes: Vec<Vec<u8>>,
}

impl Model for Pages {
    ghost use Rattle.std.specs.Prelude.{ℕ, List, map};

    ghost Value = { List (List ℕ) };

    ghost view = { λ p. map (λ v. v.items) p.boxes.items };
}

impl Pages {
    /// The pages in these boxes. No memory is taken.
    pub fn from_vec(boxes: Vec<Vec<u8>>) -> Pages
        ensures { result ≡ map (λ v. v.items) boxes.items }
    {
        Pages { boxes }
    }

    /// The boxes, in order.
    pub fn as_slice(&self) -> &[Vec<u8>]
        ensures { map (λ v. v.items) result.now ≡ self.now }
    {
        self.boxes.as_slice()
    }

    /// How many there are.
    pub fn len(&self) -> usize
        ensures { result ≡ length self.now }
    {
        self.boxes.len()
    }

    /// The page in the box of this number: `None` exactly where there is no such box.
    pub fn get(&self, place: usize) -> Option<&[u8]>
        ensures { option_map (λ page. page.now) result ≡ slice_get self.now place }
    {
        match self.boxes.get(place) {
            Some(page) => Some(page.as_slice()),
            None => None,
        }
    }
}
