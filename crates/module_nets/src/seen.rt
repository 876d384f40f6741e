//! What earlier mentions of one name were.

ghost use Rattle.std.specs.Prelude.{◌≡◌};
ghost use Rattle.module_nets.specs.Declarations.{same_range};
ghost use Rattle.module_nets.specs.Seen.{any_seen, clash, fresh, noted};

use crate::mention::Role;
use verilog_tree::{Dir, IndexRange};

/// What a name was mentioned as so far: in the header without direction, with a direction, as a wire,
/// as a use, as anything else; the last range of a direction or a wire; and the first direction and
/// the first range that was given.
#[derive(Clone, Copy, Debug, Drop)]
pub(crate) struct Seen {
    pub(crate) bare: bool,
    pub(crate) given: bool,
    pub(crate) wired: bool,
    pub(crate) used: bool,
    pub(crate) other: bool,
    pub(crate) last: Option<IndexRange>,
    pub(crate) dir: Option<Dir>,
    pub(crate) range: Option<Option<IndexRange>>,
}

/// Whether two ranges are written with the same numbers.
fn same_range(a: Option<IndexRange>, b: Option<IndexRange>) -> bool
    ensures { result ≡ same_range a b }
{
    match (a, b) {
        (None, None) => true,
        (Some(a), Some(b)) => a.left == b.left && a.right == b.right,
        _ => false,
    }
}

impl Seen {
    /// Nothing so far.
    pub(crate) fn fresh() -> Seen
        ensures { result ≡ fresh }
    {
        Seen {
            bare: false,
            given: false,
            wired: false,
            used: false,
            other: false,
            last: None,
            dir: None,
            range: None,
        }
    }

    /// Whether there is any earlier mention.
    fn any(self) -> bool
        ensures { result ≡ any_seen self }
    {
        self.bare || self.given || self.wired || self.used || self.other
    }

    /// Whether a name that was mentioned so may not be mentioned in this role too.
    pub(crate) fn clashes(self, role: Role) -> bool
        ensures { result ≡ clash self role }
    {
        match role {
            Role::Directed(_, range) => {
                self.given || self.used || self.other || self.wired && !same_range(self.last, range)
            }
            Role::Wired(range) => {
                self.wired || self.used || self.other || self.given && !same_range(self.last, range)
            }
            Role::Used => self.bare || self.given || self.wired || self.other,
            _ => self.any(),
        }
    }

    /// The same with one mention more.
    pub(crate) fn noted(self, role: Role) -> Seen
        ensures { result ≡ noted self role }
    {
        match role {
            Role::Bare => Seen { bare: true, ..self },
            Role::Headed(dir, range) | Role::Directed(dir, range) => Seen {
                given: true,
                last: range,
                dir: self.dir.or(Some(dir)),
                range: self.range.or(Some(range)),
                ..self
            },
            Role::Wired(range) => Seen {
                wired: true,
                last: range,
                range: self.range.or(Some(range)),
                ..self
            },
            Role::Supplied(range) => Seen {
                other: true,
                range: self.range.or(Some(range)),
                ..self
            },
            Role::Owned => Seen {
                other: true,
                ..self
            },
            Role::Used => Seen { used: true, ..self },
        }
    }
}
