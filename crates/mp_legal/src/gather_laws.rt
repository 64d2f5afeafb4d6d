//! What is gathered of entries and requests in any order. The functions do nothing: each one's contract is a law.

ghost use Rattle.std.specs.Prelude.{◌≡◌, List, length, map};
ghost use Rattle.std.specs.List.{AllByRecursion, enumerate_from};
ghost use Rattle.std.specs.List.Sorted.{IsPermutation};
ghost use Rattle.mp_words.specs.declared.row.Row.{Row};
ghost use Rattle.mp_words.specs.declared.entry.RowEntry.{RowEntry};
ghost use Rattle.mp_words.specs.RequestView.{RequestView};
ghost use Rattle.mp_words.specs.Request.{Asked, asked_of};
ghost use Rattle.mp_script.specs.Distinct.{IsDistinct};
ghost use Rattle.mp_legal.specs.Fitting.{IsHistory};
ghost use Rattle.mp_legal.specs.Gathering.{AreNumbered, AreVersions, HaveSameItems, history};
ghost use Rattle.mp_legal.specs.Opening.{opening_entry};
ghost use Rattle.mp_legal.specs.PlainRun.{rows_in};

/// Where entries made the histories of all slots, each version after the one before it, the same entries in any order
/// may be gathered: the rows of the opening have version 0, each slot's entries have the versions 1, 2 and on, each
/// once, and the histories are the same.
pub fn entries_in_any_order_make_the_histories()
    ensures begin { (opened : List Row) (rows : List RowEntry) → AllByRecursion IsHistory (map (rows_in rows) (map opening_entry (enumerate_from 0 opened))) → AllByRecursion (λ row. row.version ≡ 0) opened }
    ensures versions { (opened : List Row) (rows entries : List RowEntry) → length opened ≡ 15 → AllByRecursion IsHistory (map (rows_in rows) (map opening_entry (enumerate_from 0 opened))) → HaveSameItems entries rows → AreVersions entries }
    ensures histories { (opened : List Row) (rows entries : List RowEntry) → AllByRecursion IsHistory (map (rows_in rows) (map opening_entry (enumerate_from 0 opened))) → HaveSameItems entries rows → map (history entries) (map opening_entry (enumerate_from 0 opened)) ≡ map (rows_in rows) (map opening_entry (enumerate_from 0 opened)) }
{}

/// Where requests stand by number, the same ones in any order may be gathered: their numbers differ, and in the order of
/// their numbers they are the same list.
pub fn requests_in_any_order_stand_by_number()
    ensures differ { (told : List Asked) (requests : List RequestView) → AreNumbered told → HaveSameItems (map asked_of requests) told → IsDistinct (map (λ r. r.id) requests) }
    ensures same { (told : List Asked) (requests others : List RequestView) → AreNumbered told → HaveSameItems (map asked_of requests) told → IsPermutation requests others → AreNumbered (map asked_of others) → map asked_of others ≡ told }
{}
