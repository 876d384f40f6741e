//! The places of a module at which a name says something of it.

ghost use Rattle.std.specs.Prelude.{◌≡◌};
ghost use Rattle.module_nets.specs.Declarations.{is_of};

use verilog_tree::{Dir, IndexRange};

/// What stands at a place where a module names something of its own.
#[derive(Clone, Copy, Debug, Drop)]
pub enum Role {
    /// A port in the header, without a direction.
    Bare,
    /// A port in the header, with its direction and range.
    Headed(Dir, Option<IndexRange>),
    /// A port to which an item gives a direction and range.
    Directed(Dir, Option<IndexRange>),
    /// A wire.
    Wired(Option<IndexRange>),
    /// A supply net.
    Supplied(Option<IndexRange>),
    /// An instance or a primitive.
    Owned,
    /// A use at which an undeclared name may become a wire.
    Used,
}

/// A name in a module, by its token, and what stands there.
#[derive(Clone, Copy, Debug, Drop)]
pub struct Mention {
    pub token: u32,
    pub role: Role,
}

/// Kinds of roles; those of one kind may be in others too.
#[derive(Clone, Copy, Debug)]
pub enum Class {
    /// Ports in the header.
    Head,
    /// Ports to which items give a direction.
    Direction,
    /// Nets in items: directions, wires and supply nets.
    Other,
    /// Uses.
    Use,
    /// Instances and primitives.
    Own,
}

/// Whether a role is of a kind.
pub(crate) fn is_of(class: Class, role: Role) -> bool
    ensures { result ≡ is_of class role }
{
    match (class, role) {
        (Class::Head, Role::Bare) => true,
        (Class::Head, Role::Headed(_, _)) => true,
        (Class::Direction, Role::Directed(_, _)) => true,
        (Class::Other, Role::Directed(_, _)) => true,
        (Class::Other, Role::Wired(_)) => true,
        (Class::Other, Role::Supplied(_)) => true,
        (Class::Use, Role::Used) => true,
        (Class::Own, Role::Owned) => true,
        _ => false,
    }
}
