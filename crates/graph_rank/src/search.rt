//! The depth-first search that ranks all nodes that have a rank.
ghost use Rattle.std.specs.Prelude.{◌≡◌, ◌<◌, ◌≤◌, ◌++◌, ◌∷◌, ◌-◌, ℕ, [], false, true, length, take, map, MatchOption, IfOk, OnOk, slice_index, slice_set, Contains, All, if◌then◌else◌};
ghost use Rattle.graph_rank.specs.declared.search.Mark.TheVariants.{Fresh, Met, Ranked};
ghost use Rattle.graph_rank.specs.Rows.{row, InRange};
ghost use Rattle.graph_rank.specs.Ranks.{above};
ghost use Rattle.graph_rank.specs.Search.{fresh, ranked, rank_of, mark_at, rank_at, RankedBelow, IsSearch, IsStep, IsLast, Keeps, AreMarks};

use crate::Graph;
use emu_io::NoMemory;
use std::alloc::Global;

/// What the search knows of a node.
#[derive(Clone, Copy, Debug, Drop, PartialEq, Eq)]
pub(crate) enum Mark {
    /// Nothing so far.
    Fresh,
    /// The search came to it, and did not rank it.
    Met,
    /// It has this rank.
    Ranked(u32),
}

impl Mark {
    /// Whether nothing is known.
    pub(crate) fn is_fresh(self) -> bool
        ensures { result ≡ fresh self }
    {
        matches!(self, Mark::Fresh)
    }

    /// Whether the node has a rank.
    pub(crate) fn is_ranked(self) -> bool
        ensures { result ≡ ranked self }
    {
        matches!(self, Mark::Ranked(_))
    }

    /// The rank, or 0 where there is none.
    pub(crate) fn rank(self) -> u32
        ensures { result ≡ rank_of self }
    {
        match self {
            Mark::Fresh | Mark::Met => 0,
            Mark::Ranked(rank) => rank,
        }
    }
}

/// A mark for each node of the graph: its rank, where it has one.
pub(crate) fn mark_all(alloc: Global, graph: &Graph) -> Result<Vec<Mark>, NoMemory>
    requires { InRange graph.now }
    ensures { IfOk result (λ marks. AreMarks graph.now marks.items) }
{
    let mut search = Search::new(alloc, graph)?;
    'roots: for root in 0..graph.len() {
        search.visit(graph, root)?;
    }
    Ok(search.marks)
}

// The search goes from a node to the first node of its row that has no rank so far. Where there is
// none, the node is ranked, and the search goes back. Where it has met that node before, all nodes of
// the trail depend on a cycle, and the trail is left.
#[derive(Drop)]
struct Search {
    marks: Vec<Mark>,
    // how far the search has come in the row of each node
    next: Vec<usize>,
    trail: Vec<u32>,
}

impl Search {
    fn new(alloc: Global, graph: &Graph) -> Result<Search, NoMemory>
        requires { InRange graph.now }
        ensures search { IfOk result (λ s. IsSearch graph.now s.marks.items s.next.items s.trail.items) }
        ensures trail { IfOk result (λ s. s.trail.items ≡ []) }
    {
        let count = graph.len() as usize;
        Ok(Search {
            marks: vec![in alloc; Mark::Fresh; count]?,
            next: vec![in alloc; 0; count]?,
            trail: Vec::new(alloc),
        })
    }

    // Searches from a node, so that it is fresh no longer.
    fn visit(&mut self, graph: &Graph, root: u32) -> Result<(), NoMemory>
        requires search { IsSearch graph.now self.old.marks.items self.old.next.items self.old.trail.items }
        requires trail { self.old.trail.items ≡ [] }
        requires root { root < length graph.now }
        ensures search { OnOk result (IsSearch graph.now self.new.marks.items self.new.next.items self.new.trail.items) }
        ensures trail { OnOk result (self.new.trail.items ≡ []) }
        ensures keeps { OnOk result (Keeps self.old.marks.items self.new.marks.items) }
        ensures met { OnOk result (fresh (mark_at self.new.marks.items root) ≡ false) }
    {
        if !self.marks[root as usize].is_fresh() {
            return Ok(());
        }
        self.enter(root)?;
        'search: while let Some(place) = self.trail.last().copied() {
            self.step(graph, place)?;
        }
        Ok(())
    }

    // Goes one step on from the last node of the trail.
    fn step(&mut self, graph: &Graph, place: u32) -> Result<(), NoMemory>
        requires search { IsSearch graph.now self.old.marks.items self.old.next.items self.old.trail.items }
        requires last { IsLast self.old.trail.items place }
        ensures { OnOk result (IsStep graph.now self.old.marks.items self.old.trail.items
            self.new.marks.items self.new.next.items self.new.trail.items) }
    {
        let needs = graph.row(place);
        let from = self.next[place as usize];
        match first_unranked(needs, self.marks.as_slice(), from) {
            None => {
                let rank = rank_above(needs, self.marks.as_slice());
                self.finish(place, rank);
                Ok(())
            }
            Some(end) => {
                self.next[place as usize] = end;
                self.follow(needs[end])?;
                Ok(())
            }
        }
    }

    // Goes to a node that has no rank, or leaves the trail where that node was met before.
    fn follow(&mut self, need: u32) -> Result<(), NoMemory>
        requires { need < length self.old.marks.items }
        ensures next { OnOk result (self.new.next.items ≡ self.old.next.items) }
        ensures marks { let marks = self.old.marks.items in
            OnOk result (self.new.marks.items ≡ (if fresh (mark_at marks need) then slice_set marks need Met else marks)) }
        ensures trail { let trail = self.old.trail.items in
            OnOk result (self.new.trail.items ≡ (if fresh (mark_at self.old.marks.items need) then trail ++ need ∷ [] else [])) }
    {
        if self.marks[need as usize].is_fresh() {
            self.enter(need)?;
        } else {
            self.trail.clear();
        }
        Ok(())
    }

    // Puts a node at the end of the trail.
    fn enter(&mut self, place: u32) -> Result<(), NoMemory>
        requires { place < length self.old.marks.items }
        ensures next { OnOk result (self.new.next.items ≡ self.old.next.items) }
        ensures marks { OnOk result (self.new.marks.items ≡ slice_set self.old.marks.items place Met) }
        ensures trail { OnOk result (self.new.trail.items ≡ self.old.trail.items ++ place ∷ []) }
    {
        self.trail.push(place)?;
        self.marks[place as usize] = Mark::Met;
        Ok(())
    }

    // Ranks the last node of the trail, and takes it off.
    fn finish(&mut self, place: u32, rank: u32)
        requires { place < length self.old.marks.items }
        ensures next { self.new.next.items ≡ self.old.next.items }
        ensures marks { self.new.marks.items ≡ slice_set self.old.marks.items place (Ranked rank) }
        ensures trail { let trail = self.old.trail.items in self.new.trail.items ≡ take (length trail - 1) trail }
    {
        self.marks[place as usize] = Mark::Ranked(rank);
        self.trail.pop();
    }
}

// The first node of a row that has no rank; those before a place have one.
fn first_unranked(needs: &[u32], marks: &[Mark], from: usize) -> Option<usize>
    requires from { from ≤ length needs.now }
    requires bounds { All (λ d. d < length marks.now) needs.now }
    requires passed { RankedBelow marks.now needs.now from }
    ensures { MatchOption result (RankedBelow marks.now needs.now (length needs.now)) (λ end.
        (end < length needs.now) × RankedBelow marks.now needs.now end
        × (ranked (mark_at marks.now (slice_index needs.now end)) ≡ false)) }
{
    'needs: for end in from..needs.len() {
        if !marks[needs[end] as usize].is_ranked() {
            return Some(end);
        }
    }
    None
}

// One more than the greatest rank of a row.
fn rank_above(needs: &[u32], marks: &[Mark]) -> u32
    requires bounds { All (λ d. d < length marks.now) needs.now }
    requires low { All (λ d. rank_at marks.now d < 4294967295) needs.now }
    ensures { result ≡ above (rank_at marks.now) needs.now }
{
    let mut rank = 0;
    'needs: for need in needs {
        rank = rank.max(marks[*need as usize].rank() + 1);
    }
    rank
}
