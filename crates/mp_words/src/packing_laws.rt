//! What it means that rows, orders and sides stand in words.

ghost use Rattle.std.specs.Prelude.{◌≡◌, ◌≢◌, false, ◌<◌, ◌^◌, ℕ, Some, None};
ghost use Rattle.mp_words.specs.declared.row.Row.{Row};
ghost use Rattle.mp_words.specs.declared.words.Side.{Side};
ghost use Rattle.mp_words.specs.declared.order.Order.{Order};
ghost use Rattle.mp_words.specs.RowWord.{row_word, row_of_word, FitsRowWord};
ghost use Rattle.mp_words.specs.SideWord.{side_word, side_of_word};
ghost use Rattle.mp_words.specs.OrderWord.{order_word, order_of_word, is_no_order, IsOrderWord, FitsOrderWord};
ghost use Rattle.mp_words.specs.TwoPaths.{first_path, second_path, two_paths};

/// A row's word unpacks to the row, and every word that is no row's to none.
pub fn rows_unpack()
    ensures own { (row : Row) → FitsRowWord row → row_of_word (row_word row) ≡ Some row }
    ensures other { (word : ℕ) → ((row : Row) → FitsRowWord row → row_word row ≢ word) → row_of_word word ≡ None }
{}

/// A word that unpacks to a row is the word of that row, which may be stored.
pub fn rows_pack()
    ensures word { (word : ℕ) (row : Row) → row_of_word word ≡ Some row → row_word row ≡ word }
    ensures fits { (word : ℕ) (row : Row) → row_of_word word ≡ Some row → FitsRowWord row }
{}

/// An order's word unpacks to the order, and every word that is no order's to none.
pub fn orders_unpack()
    ensures own { (order : Order) → FitsOrderWord order → order_of_word (order_word order) ≡ Some order }
    ensures other { (word : ℕ) → word < 2 ^ 64 → ((order : Order) → FitsOrderWord order → order_word order ≢ word) → order_of_word word ≡ None }
{}

/// A word that unpacks to an order is the word of that order, which may be stored.
pub fn orders_pack()
    ensures word { (word : ℕ) (order : Order) → word < 2 ^ 64 → order_of_word word ≡ Some order → order_word order ≡ word }
    ensures fits { (word : ℕ) (order : Order) → order_of_word word ≡ Some order → FitsOrderWord order }
{}

/// Exactly the words whose policy isn't 3, in which no slot stands twice, and in which no listed slot follows an empty
/// place, are orders' words.
pub fn orders_have_words()
    ensures from { (word : ℕ) → IsOrderWord word → is_no_order word ≡ false }
    ensures to { (word : ℕ) → is_no_order word ≡ false → IsOrderWord word }
{}

/// A side's word unpacks to the side, and every word is the word of the side that it unpacks to.
pub fn sides_pack()
    ensures own { (side : Side) → side.inside < 2 ^ 32 → side_of_word (side_word side) ≡ side }
    ensures word { (word : ℕ) → side_word (side_of_word word) ≡ word }
{}

/// The words of two live, optimized and ready paths, listed under NUMA, and two words that are none.
pub fn words_of_two_paths()
    ensures first { row_word first_path ≡ 0x0000_4240_0000_0000 }
    ensures second { row_word second_path ≡ 0x0000_4241_0000_0000 }
    ensures order { order_word two_paths ≡ 0xFFFF_FF10_0000_0000 }
    ensures no_row { row_of_word 0x0004_0000_0000_0000 ≡ None }
    ensures no_order { order_of_word 0xFFFF_FF00_0000_0000 ≡ None }
{}
