//! What the words of the rows and of the list of paths say, beside them: a load unpacks nothing.

ghost use Rattle.std.specs.Prelude.{◌≡◌, ℕ, ◌<◌, false, map, slice_index};
ghost use Rattle.mp_words.specs.RowWord.{is_no_row, row_in};
ghost use Rattle.mp_words.specs.OrderWord.{is_no_order, order_in};
ghost use Rattle.mp_plain.specs.Packed.{IsPacked, IsUnpacked};

use mp_words::effect::free_row;
use mp_words::numbers::Slot;
use mp_words::order::Order;
use mp_words::row::Row;
use mp_words::words::Words;

/// The number of slots.
const SLOTS: usize = 15;

/// The list of paths, and the row of each slot.
#[derive(Drop)]
pub(crate) struct Unpacked {
    pub(crate) order: Order,
    pub(crate) rows: [Row; 15],
}

impl Unpacked {
    /// What these words say.
    pub(crate) fn of_words(words: &Words) -> Unpacked
        requires { IsPacked words.now }
        ensures { IsUnpacked words.now result }
    {
        Unpacked {
            order: order_of(words.order),
            rows: rows_of(&words.rows),
        }
    }
}

/// The list of paths of its word.
fn order_of(word: u64) -> Order
    requires { is_no_order word ≡ false }
    ensures { result ≡ order_in word }
{
    let _: Option<Slot> = None;
    Order::unpack(word).unwrap()
}

/// The rows of their words.
fn rows_of(words: &[u64; 15]) -> [Row; 15]
    requires { (s : ℕ) → s < 15 → is_no_row (slice_index words.now s) ≡ false }
    ensures { result ≡ map row_in words.now }
{
    let mut rows = [free_row(0); SLOTS];
    for slot in 0..SLOTS {
        let row = Row::unpack(words[slot]).unwrap();
        rows[slot] = row;
    }
    rows
}
