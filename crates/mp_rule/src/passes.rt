//! How the rule begins and ends, and what it is when a pass comes or goes.

ghost use Rattle.mp_rule.specs.Reader.{RuleBegins, PassIsSplit, PassIsJoined, RuleEnds};

/// On lawful words that have room for the units, with the keeper's view alone, the rule holds.
pub fn the_rule_begins()
    ensures { RuleBegins }
{}

/// After a pass was split off for a lane that isn't out, with units that the keeper has, the rule holds.
pub fn a_split()
    ensures { PassIsSplit }
{}

/// After a pass without an open section and without a flight was joined, the rule holds.
pub fn a_join()
    ensures { PassIsJoined }
{}

/// Where no lane is out and the keeper has no open section and no flight, the words are lawful and have room for its
/// units.
pub fn the_rule_ends()
    ensures { RuleEnds }
{}
