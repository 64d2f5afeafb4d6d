//! Each step of a lane keeps the rule, and does what its kind says.

ghost use Rattle.mp_rule.specs.Kept.{SideIsLoaded, SideIsEntered, SideIsLeft, OrderIsLoaded, RowIsLoaded, FlightRowIsLoaded, RowIsChanged, ChangeIsLost, DepthIsLoaded, RequestIsSent, FlightEnds, CurrentIsLoaded, CurrentIsStored, CurrentIsCleared};

/// A load of the side index does what its kind says, and keeps the rule.
pub fn a_load_of_the_side_index()
    ensures { SideIsLoaded }
{}

/// An entry of a side, with a unit left and no open section, does what its kind says, and keeps the rule.
pub fn an_entry_of_a_side()
    ensures { SideIsEntered }
{}

/// The end of the open section does what its kind says, and keeps the rule.
pub fn the_end_of_a_section()
    ensures { SideIsLeft }
{}

/// A load of the list of paths by a section that has read nothing does what its kind says, and keeps the rule.
pub fn a_load_of_the_list_of_paths()
    ensures { OrderIsLoaded }
{}

/// A load of the row of a slot that the section reaches does what its kind says, and keeps the rule.
pub fn a_load_of_a_row()
    ensures { RowIsLoaded }
{}

/// A load of the row of a flight's slot does what its kind says, and keeps the rule.
pub fn a_load_of_a_flights_row()
    ensures { FlightRowIsLoaded }
{}

/// A change of a row from the one that stands there does what its kind says, and keeps the rule.
pub fn a_change_of_a_row()
    ensures { RowIsChanged }
{}

/// A change of a row from another than the one that stands there does what its kind says, and keeps the rule.
pub fn a_lost_change_of_a_row()
    ensures { ChangeIsLost }
{}

/// A load of a depth does what its kind says, and keeps the rule.
pub fn a_load_of_a_depth()
    ensures { DepthIsLoaded }
{}

/// A send to a slot whose usable row the section loaded does what its kind says, and keeps the rule.
pub fn a_send()
    ensures { RequestIsSent }
{}

/// The end of a flight does what its kind says, and keeps the rule.
pub fn the_end_of_a_flight()
    ensures { FlightEnds }
{}

/// A load of a node's current word does what its kind says, and keeps the rule.
pub fn a_load_of_a_current_word()
    ensures { CurrentIsLoaded }
{}

/// A store of none, or of a slot whose enabled row the section loaded, in a node's current word does what its kind
/// says, and keeps the rule.
pub fn a_store_of_a_current_word()
    ensures { CurrentIsStored }
{}

/// A clear of a node's current word does what its kind says, and keeps the rule.
pub fn a_clear_of_a_current_word()
    ensures { CurrentIsCleared }
{}
