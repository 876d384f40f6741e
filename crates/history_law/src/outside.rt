//! What holds of the nodes that a group does not reach.

ghost use Rattle.history_law.specs.Outside.{OutsideKeepsWords, OutsideStays, OutsideStoresNothing};

/// In an event of a group, a net outside the group's influence keeps its value.
pub fn outside_stays()
    ensures { OutsideStays }
{}

/// In an event of a group, a write port outside the group's influence stores nothing.
pub fn outside_stores_nothing()
    ensures { OutsideStoresNothing }
{}

/// In an event of a group, a memory none of whose write ports is in the group's influence keeps its
/// words.
pub fn outside_keeps_words()
    ensures { OutsideKeepsWords }
{}
