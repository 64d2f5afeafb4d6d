//! Why no removal began.

use mp_words::order::Order;
use mp_words::row::Row;

/// Why no removal began.
#[derive(Clone, Copy)]
pub enum RemoveError {
    /// The controller has no path that isn't under removal, by this list of paths.
    NoPath(Order),
    /// Another change came between: the row that was found in place of the one read, of a greater version.
    Moved(Row),
}
