//! What a word that was found says.

ghost use Rattle.std.specs.Prelude.{◌≡◌, ◌<◌, ℕ, Some, false};
ghost use Rattle.mp_words.specs.RowWord.{is_no_row, row_in};
ghost use Rattle.mp_words.specs.OrderWord.{is_no_order, order_in};
ghost use Rattle.mp_core.specs.Unpacked.{current_in_word};

use mp_words::numbers::Slot;
use mp_words::order::Order;
use mp_words::row::Row;

/// The row of a word.
pub(crate) fn row_of(word: u64) -> Row
    requires { is_no_row word ≡ false }
    ensures { result ≡ row_in word }
{
    Row::unpack(word).unwrap()
}

/// The list of paths of a word.
pub(crate) fn order_of(word: u64) -> Order
    requires { is_no_order word ≡ false }
    ensures { result ≡ order_in word }
{
    let _: Option<Slot> = None;
    Order::unpack(word).unwrap()
}

/// The slot that a current word names, if it names one.
pub(crate) fn current_of(word: u64) -> Option<Slot>
    requires { (slot : ℕ) → current_in_word word ≡ Some slot → slot < 15 }
    ensures { result ≡ current_in_word word }
{
    if word == 0 {
        return None;
    }
    Some(Slot::make((word - 1) as u32).unwrap())
}

/// The word of a current path.
pub(crate) fn current_word(current: &Option<Slot>) -> u64
    ensures { current_in_word result ≡ current.now }
{
    match current {
        Some(slot) => u64::from(slot.get()) + 1,
        None => 0,
    }
}
