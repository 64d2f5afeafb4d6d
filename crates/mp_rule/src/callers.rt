//! What the rule means for those who call the table.

ghost use Rattle.mp_rule.specs.Reader.{LoadsOfOrdersNeverGoBack, LoadsOfRowsNeverGoBack, LostChangesAreNewer, GivesAreSafe, FlightsHoldTheirSlot, FlightsAreNotFreedUnder, SendsAreListed, DepthsCountOwnFlights};

/// The list of paths that stands there is lawful, and not older than what the pass has seen.
pub fn loads_of_the_list_never_go_back()
    ensures { LoadsOfOrdersNeverGoBack }
{}

/// The row that stands in a slot is lawful, and not older than what the pass has seen of it.
pub fn loads_of_rows_never_go_back()
    ensures { LoadsOfRowsNeverGoBack }
{}

/// Where another row stands than the one that a section has read, it has a greater version.
pub fn a_lost_change_met_a_newer_row()
    ensures { LostChangesAreNewer }
{}

/// Where the keeper may give a slot a path, no open section's list of paths has the slot, no flight is on it, and
/// each section with a ticket below a kept scan of its side is over.
pub fn a_give_is_safe()
    ensures { GivesAreSafe }
{}

/// While a flight is on a slot, the slot is not free, not about to be given, and not about to be freed.
pub fn a_flight_holds_its_slot()
    ensures { FlightsHoldTheirSlot }
{}

/// While a flight is on a slot, the keeper may not free it.
pub fn no_path_is_freed_under_a_flight()
    ensures { FlightsAreNotFreedUnder }
{}

/// A section that has loaded a usable row of a slot may send to it: the slot is listed.
pub fn a_send_goes_to_a_listed_path()
    ensures { SendsAreListed }
{}

/// A depth is at least the number of the flights that one pass has on the slot.
pub fn a_depth_counts_the_own_flights()
    ensures { DepthsCountOwnFlights }
{}
