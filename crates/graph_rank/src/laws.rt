//! The laws of ranks and cycles.
ghost use Rattle.graph_rank.specs.Answers.{RanksAreUnique, RankingsAreSorted, RankedHasNoCycle, UnrankedHasCycle, CyclesComeRound};

/// A node has at most one rank.
pub fn ranks_are_unique()
    ensures { RanksAreUnique }
{}

/// In a ranking all on which a node depends stands before the node.
pub fn rankings_are_sorted()
    ensures { RankingsAreSorted }
{}

/// Where each node has a rank, no node depends on itself, in one step or in more.
pub fn ranked_has_no_cycle()
    ensures { RankedHasNoCycle }
{}

/// Where all nodes that a graph names are there and some node has no rank, some node depends on itself, in
/// one step or in more.
pub fn unranked_has_cycle()
    ensures { UnrankedHasCycle }
{}

/// The first node of a cycle depends on itself, in one step or in more.
pub fn cycles_come_round()
    ensures { CyclesComeRound }
{}
