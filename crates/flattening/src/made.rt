//! What flattening has made so far.

use design_core::{Element, Memory, NetName, Scope};
use emu_io::List;

/// The lists of a design in the making, whose lengths are the next numbers. Each element has, at its own
/// place in `paths`, the scope that its path ends in. A scope is an instance of a module or of a cell, or a
/// primitive with a name; `modules` counts the instances of modules.
#[derive(Debug, Drop)]
pub struct Made {
    pub net_names: List<NetName>,
    pub scopes: List<Scope>,
    pub elements: List<Element>,
    pub paths: List<u32>,
    pub memories: List<Memory>,
    pub modules: u32,
}
