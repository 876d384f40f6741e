//! The laws of orders and cycles.
ghost use Rattle.clock_rank.specs.Answers.{CyclesAreUnranked, CyclesComeRound, OrdersAreSorted, RankedWhereNoCycle, RanksAreUnique};

/// A node has at most one rank.
pub fn ranks_are_unique()
    ensures { RanksAreUnique }
{}

/// In an order all on which a node depends stands before the node.
pub fn orders_are_sorted()
    ensures { OrdersAreSorted }
{}

/// A design is ranked exactly where none of its nodes rests on itself, directly or through others.
pub fn ranked_where_no_cycle()
    ensures { RankedWhereNoCycle }
{}

/// A design of which a cycle is told is not ranked.
pub fn cycles_are_unranked()
    ensures { CyclesAreUnranked }
{}

/// The first node of a cycle that is told rests on itself, directly or through others.
pub fn cycles_come_round()
    ensures { CyclesComeRound }
{}
