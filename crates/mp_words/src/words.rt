//! The words of the table.

ghost use Rattle.std.specs.Prelude.{◌≡◌};
ghost use Rattle.mp_words.specs.SideWord.{side_word, side_of_word};

/// A side's word: how many sections have entered it, and how many are inside.
#[derive(Clone, Copy)]
pub struct Side {
    pub entries: u32,
    pub inside: u32,
}

impl Side {
    /// The side's word: bits 0 to 31 are the sections inside, 32 to 63 the entries. The word unpacks to the side.
    pub fn pack(self) -> u64
        ensures word { result ≡ side_word self }
        ensures unpacks { side_of_word result ≡ self }
    {
        u64::from(self.entries) << 32 | u64::from(self.inside)
    }

    /// The side of a word: each word is a side's, and the side packs to the word.
    pub fn unpack(word: u64) -> Side
        ensures side { result ≡ side_of_word word }
        ensures packs { side_word result ≡ word }
    {
        Side {
            entries: (word >> 32) as u32,
            inside: (word & 0xFFFF_FFFF) as u32,
        }
    }
}

/// The words of the table: the side index, 0 or 1, the two sides, the order, and by slot the rows and the depths, each
/// the number of flights, and by node the current words, each 0 for none and else a slot plus 1.
#[derive(Clone, Copy)]
pub struct Words {
    pub index: u64,
    pub sides: [u64; 2],
    pub order: u64,
    pub rows: [u64; 15],
    pub depths: [u64; 15],
    pub currents: [u64; 8],
}
