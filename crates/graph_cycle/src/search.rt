//! The depth-first search that finds for each node whether it lies on a cycle.
ghost use Rattle.std.specs.Prelude.{◌≡◌, ◌<◌, ◌≤◌, ◌++◌, ◌∷◌, ◌-◌, ◌↔◌, ℕ, [], false, length, take, IfOk, IsTrue, OnOk, slice_index, slice_set, Contains};
ghost use Rattle.graph_cycle.specs.declared.search.Mark.TheVariants.{Fresh, Open, Closed};
ghost use Rattle.graph_rank.specs.Rows.{row, InRange};
ghost use Rattle.graph_cycle.specs.Search.{fresh, cyclic, mark_at, IsSearch, IsLast, Enters, Follows, AreCut, AreShut, Turns, Keeps, AreMarks, weight};

use emu_io::NoMemory;
use graph_rank::Graph;
use std::alloc::Global;

/// What the search knows of a node.
#[derive(Clone, Copy, Debug, Drop, PartialEq, Eq)]
pub(crate) enum Mark {
    /// Nothing so far.
    Fresh,
    /// It stands at this place of the stack.
    Open(usize),
    /// It left the stack, and lies on a cycle or does not.
    Closed(bool),
}

impl Mark {
    /// Whether nothing is known.
    pub(crate) fn is_fresh(self) -> bool
        ensures { result ≡ fresh self }
    {
        matches!(self, Mark::Fresh)
    }

    /// Whether it is known that the node lies on a cycle.
    pub(crate) fn is_cyclic(self) -> bool
        ensures { result ≡ cyclic self }
    {
        match self {
            Mark::Fresh | Mark::Open(_) => false,
            Mark::Closed(on) => on,
        }
    }
}

/// A mark for each node of the graph, which tells whether it lies on a cycle.
pub(crate) fn mark_all(alloc: Global, graph: &Graph) -> Result<Vec<Mark>, NoMemory>
    requires { InRange graph.now }
    ensures { IfOk result (λ marks. AreMarks graph.now marks.items) }
{
    let mut search = Search::new(alloc, graph)?;
    'roots: for root in 0..graph.len() {
        search.visit(graph, root)?;
    }
    Ok(search.marks)
}

// The nodes that the search came to and did not leave stand on a stack. Each leads to all later ones. They are
// in groups of nodes that all lead to each other; where a node of the last group leads to an earlier group, all
// groups from that one on become one. The search goes on from the last node of the last group that has work.
// Where none has, all to which the group leads is known, and it leaves the stack: its nodes lie on a cycle
// where they are more than one or the one depends on itself.
#[derive(Drop)]
struct Search {
    marks: Vec<Mark>,
    // how far the search has come in the row of each node
    next: Vec<usize>,
    stack: Vec<u32>,
    // the places of the stack that have work
    work: Vec<usize>,
    // the places of the stack at which groups begin
    bounds: Vec<usize>,
}

impl Search {
    fn new(alloc: Global, graph: &Graph) -> Result<Search, NoMemory>
        requires { InRange graph.now }
        ensures search { IfOk result (λ s. IsSearch graph.now s.marks.items s.next.items s.stack.items s.work.items s.bounds.items) }
        ensures blank { IfOk result (λ s. s.bounds.items ≡ []) }
    {
        let count = graph.len() as usize;
        Ok(Search {
            marks: vec![in alloc; Mark::Fresh; count]?,
            next: vec![in alloc; 0; count]?,
            stack: Vec::new(alloc),
            work: Vec::new(alloc),
            bounds: Vec::new(alloc),
        })
    }

    // Searches from a node, so that it is fresh no longer.
    fn visit(&mut self, graph: &Graph, root: u32) -> Result<(), NoMemory>
        requires search { IsSearch graph.now self.old.marks.items self.old.next.items self.old.stack.items self.old.work.items self.old.bounds.items }
        requires blank { self.old.bounds.items ≡ [] }
        requires root { root < length graph.now }
        ensures search { OnOk result (IsSearch graph.now self.new.marks.items self.new.next.items self.new.stack.items self.new.work.items self.new.bounds.items) }
        ensures blank { OnOk result (self.new.bounds.items ≡ []) }
        ensures keeps { OnOk result (Keeps self.old.marks.items self.new.marks.items) }
        ensures met { OnOk result (fresh (mark_at self.new.marks.items root) ≡ false) }
    {
        if !self.marks[root as usize].is_fresh() {
            return Ok(());
        }
        self.enter(root)?;
        'search: while let Some(bound) = self.bounds.last().copied() {
            self.step(graph, bound)?;
        }
        Ok(())
    }

    // Goes one step on from the last group.
    fn step(&mut self, graph: &Graph, bound: usize) -> Result<(), NoMemory>
        requires search { IsSearch graph.now self.old.marks.items self.old.next.items self.old.stack.items self.old.work.items self.old.bounds.items }
        requires last { IsLast self.old.bounds.items bound }
        ensures search { OnOk result (IsSearch graph.now self.new.marks.items self.new.next.items self.new.stack.items self.new.work.items self.new.bounds.items) }
        ensures keeps { OnOk result (Keeps self.old.marks.items self.new.marks.items) }
        ensures less { OnOk result (weight graph.now self.new.marks.items self.new.next.items self.new.work.items self.new.bounds.items
            < weight graph.now self.old.marks.items self.old.next.items self.old.work.items self.old.bounds.items) }
    {
        match self.work.last().copied() {
            Some(place) if place >= bound => self.explore(graph, bound, place),
            _ => {
                self.close(graph, bound);
                Ok(())
            }
        }
    }

    // Goes on from a place of the last group to the next node of its row.
    fn explore(&mut self, graph: &Graph, bound: usize, place: usize) -> Result<(), NoMemory>
        requires search { IsSearch graph.now self.old.marks.items self.old.next.items self.old.stack.items self.old.work.items self.old.bounds.items }
        requires last { IsLast self.old.bounds.items bound }
        requires work { IsLast self.old.work.items place }
        requires group { bound ≤ place }
        ensures search { OnOk result (IsSearch graph.now self.new.marks.items self.new.next.items self.new.stack.items self.new.work.items self.new.bounds.items) }
        ensures keeps { OnOk result (Keeps self.old.marks.items self.new.marks.items) }
        ensures less { OnOk result (weight graph.now self.new.marks.items self.new.next.items self.new.work.items self.new.bounds.items
            < weight graph.now self.old.marks.items self.old.next.items self.old.work.items self.old.bounds.items) }
    {
        let node = self.stack[place];
        let needs = graph.row(node);
        let at = self.next[node as usize];
        if at >= needs.len() {
            drop_last(&mut self.work);
            return Ok(());
        }
        self.follow(needs[at])?;
        self.next[node as usize] = at + 1;
        Ok(())
    }

    // Goes to a node: enters it, or joins all groups from its own on.
    fn follow(&mut self, need: u32) -> Result<(), NoMemory>
        requires { need < length self.old.marks.items }
        ensures { OnOk result (Follows need self.old self.new) }
    {
        match self.marks[need as usize] {
            Mark::Fresh => self.enter(need)?,
            Mark::Open(place) => drop_above(&mut self.bounds, place),
            Mark::Closed(_) => {}
        }
        Ok(())
    }

    // Puts a node at the end of the stack, as a group of its own.
    fn enter(&mut self, node: u32) -> Result<(), NoMemory>
        requires { node < length self.old.marks.items }
        ensures { OnOk result (Enters node self.old self.new) }
    {
        let place = self.stack.len();
        self.stack.push(node)?;
        self.work.push(place)?;
        self.bounds.push(place)?;
        self.marks[node as usize] = Mark::Open(place);
        Ok(())
    }

    // Takes the last group from the stack.
    fn close(&mut self, graph: &Graph, bound: usize)
        requires search { IsSearch graph.now self.old.marks.items self.old.next.items self.old.stack.items self.old.work.items self.old.bounds.items }
        requires last { IsLast self.old.bounds.items bound }
        requires work { (k : ℕ) → k < length self.old.work.items → slice_index self.old.work.items k < bound }
        ensures search { IsSearch graph.now self.new.marks.items self.new.next.items self.new.stack.items self.new.work.items self.new.bounds.items }
        ensures keeps { Keeps self.old.marks.items self.new.marks.items }
        ensures less { weight graph.now self.new.marks.items self.new.next.items self.new.work.items self.new.bounds.items
            < weight graph.now self.old.marks.items self.old.next.items self.old.work.items self.old.bounds.items }
    {
        let on = turns(graph, self.stack.as_slice(), bound);
        shut(&mut self.marks, self.stack.as_slice(), bound, on);
        self.stack.truncate(bound);
        drop_last(&mut self.bounds);
    }
}

// Whether the last group is more than one node, or a node that depends on itself.
fn turns(graph: &Graph, stack: &[u32], start: usize) -> bool
    requires start { start < length stack.now }
    requires inside { slice_index stack.now start < length graph.now }
    ensures { IsTrue result ↔ Turns graph.now stack.now start }
{
    start + 1 < stack.len() || graph.row(stack[start]).contains(&stack[start])
}

// Closes the nodes from a place of the stack on.
fn shut(marks: &mut Vec<Mark>, stack: &[u32], start: usize, on: bool)
    requires inside { (k : ℕ) → k < length stack.now → slice_index stack.now k < length marks.old.items }
    requires start { start ≤ length stack.now }
    ensures { AreShut marks.old.items stack.now start (length stack.now) on marks.new.items }
{
    'each: for k in start..stack.len() {
        marks[stack[k] as usize] = Mark::Closed(on);
    }
}

// Drops the bounds above a place.
fn drop_above(bounds: &mut Vec<usize>, place: usize)
    ensures { AreCut bounds.old.items place bounds.new.items }
{
    'drop: while let Some(bound) = bounds.last().copied() {
        if bound <= place {
            return;
        }
        bounds.pop();
    }
}

// Drops the last number.
fn drop_last(numbers: &mut Vec<usize>)
    ensures { let old = numbers.old.items in numbers.new.items ≡ take (length old - 1) old }
{
    numbers.pop();
}
