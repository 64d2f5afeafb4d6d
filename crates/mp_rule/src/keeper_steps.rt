//! Each step of the keeper keeps the rule, and does what its kind says.

ghost use Rattle.mp_rule.specs.Kept.{SideIsScanned, IndexIsFlipped, RowIsHeld, RowIsKept, KeptRowIsLost, OrderIsStored, DepthIsLookedAt, CurrentIsEmptied};

/// A look of the keeper at a side does what its kind says, and keeps the rule.
pub fn a_look_at_a_side()
    ensures { SideIsScanned }
{}

/// A store of the other side in the index by the keeper does what its kind says, and keeps the rule.
pub fn a_flip()
    ensures { IndexIsFlipped }
{}

/// A load of any row by the keeper does what its kind says, and keeps the rule.
pub fn a_load_of_the_keepers_row()
    ensures { RowIsHeld }
{}

/// A give, mark or free from the row that stands there does what its kind says, and keeps the rule.
pub fn a_change_of_the_keepers_row()
    ensures { RowIsKept }
{}

/// A give, mark or free from another row than the one that stands there, which only a mark can meet, does what its
/// kind says, and keeps the rule.
pub fn a_lost_mark()
    ensures { KeptRowIsLost }
{}

/// A store of the next list of paths does what its kind says, and keeps the rule.
pub fn a_store_of_the_list_of_paths()
    ensures { OrderIsStored }
{}

/// A look of the keeper at a depth does what its kind says, and keeps the rule.
pub fn a_look_at_a_depth()
    ensures { DepthIsLookedAt }
{}

/// A store of none in a node's current word by the keeper does what its kind says, and keeps the rule.
pub fn a_store_of_none()
    ensures { CurrentIsEmptied }
{}
