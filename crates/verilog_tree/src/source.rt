//! The tree of a source text. It follows the grammar line by line. Names and constants are numbers
//! of tokens; indices of ranges and selects and the count of a repeat are values.

use emu_io::List;
use sqlite_items::Items;

/// A whole text.
#[derive(Debug, Drop)]
pub struct Source {
    pub modules: List<Module>,
}

/// One module, from `module` to `endmodule`.
#[derive(Debug, Drop)]
pub struct Module {
    pub name: u32,
    pub ports: List<PortName>,
    pub items: List<Item>,
}

/// The direction of a port.
#[derive(Clone, Copy, Debug, PartialEq, Eq, Drop)]
pub enum Dir {
    Input,
    Output,
}

/// The two indices of `[left:right]`.
#[derive(Clone, Copy, Debug, PartialEq, Eq, Drop)]
pub struct IndexRange {
    pub left: u32,
    pub right: u32,
}

/// A port in the header of a module. In a header of names it has no direction and no range; in a
/// header of directions a bare name has those of the last one that was written before it.
#[derive(Clone, Copy, Debug, PartialEq, Eq, Drop)]
pub struct PortName {
    pub name: u32,
    pub dir: Option<Dir>,
    pub range: Option<IndexRange>,
}

/// One item of a module. `at` is the number of its first token.
#[derive(Debug, Drop)]
pub enum Item {
    /// Ports that get a direction.
    Ports {
        at: u32,
        dir: Dir,
        range: Option<IndexRange>,
        names: List<u32>,
    },
    /// Wires, each with or without a value.
    Nets {
        at: u32,
        range: Option<IndexRange>,
        nets: List<NetPart>,
    },
    /// Nets that are constantly 0 or, where `one` holds, 1.
    Supply {
        at: u32,
        one: bool,
        range: Option<IndexRange>,
        names: List<u32>,
    },
    /// Assignments.
    Assign {
        at: u32,
        pairs: List<AssignPair>,
    },
    /// Primitives; `at` is the word of their gate.
    Gates {
        at: u32,
        prims: List<GatePart>,
    },
    /// Instances; `at` is the name of their module.
    Instances {
        at: u32,
        insts: List<Inst>,
    },
}

/// A wire in an item, with the expression that it is assigned.
#[derive(Debug, Drop)]
pub struct NetPart {
    pub name: u32,
    pub value: Option<Expr>,
}

/// One assignment.
#[derive(Debug, Drop)]
pub struct AssignPair {
    pub left: Expr,
    pub right: Expr,
}

/// One primitive: its name, if it has one, and its terminals in order.
#[derive(Debug, Drop)]
pub struct GatePart {
    pub name: Option<u32>,
    pub terminals: List<Expr>,
}

/// One instance.
#[derive(Debug, Drop)]
pub struct Inst {
    pub name: u32,
    pub links: Links,
}

/// The connections of an instance.
#[derive(Debug, Drop)]
pub enum Links {
    /// Nothing stands between the parentheses.
    Empty,
    /// Connections by order; a place may be empty.
    Ordered(List<Option<Expr>>),
    /// Connections by name.
    Named(List<NamedLink>),
}

/// A connection by name; nothing may stand between its parentheses.
#[derive(Debug, Drop)]
pub struct NamedLink {
    pub port: u32,
    pub expr: Option<Expr>,
}

/// An expression, or the left side of an assignment.
#[derive(Debug, Drop)]
pub enum Expr {
    /// A name without a select.
    Whole(u32),
    /// A name and an index.
    Bit(u32, u32),
    /// A name and its left and right index.
    Part(u32, u32, u32),
    /// A sized constant.
    Constant(u32),
    /// The parts of a concatenation.
    Join(Items<Expr>),
    /// A count, and the parts that are repeated.
    Repeat(u32, Items<Expr>),
}
