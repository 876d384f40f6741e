//! The plain parts that a design is made of.

use crate::{Element, Memory};
use emu_io::{List, Text};
use id_arena::NetId;

/// A port of the design: its name, and its nets from bit 0.
#[derive(Debug, Drop)]
pub struct Port {
    pub name: Text,
    pub nets: List<NetId>,
}

/// The name of a net within its scope, with its index where the net is a bit of a vector.
#[derive(Debug, Drop)]
pub struct NetName {
    pub scope: u32,
    pub name: Text,
    pub index: Option<u32>,
}

/// An instance of a module: the place of the scope around it, and its name there. The top has no
/// scope around it.
#[derive(Debug, Drop)]
pub struct Scope {
    pub parent: Option<u32>,
    pub name: Text,
}

/// The lists that make a design. Nets are numbered by the places of their names; nets 0 and 1 are the
/// constants 0 and 1. Each element has, at its own place in `paths`, the scope that its path ends in.
#[derive(Debug, Drop)]
pub struct Parts {
    pub net_names: List<NetName>,
    pub scopes: List<Scope>,
    pub elements: List<Element>,
    pub paths: List<u32>,
    pub memories: List<Memory>,
    pub inputs: List<Port>,
    pub outputs: List<Port>,
}
