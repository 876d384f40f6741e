//! Judging one mention of a module.

ghost use Rattle.std.specs.Prelude.{◌≡◌, ◌<◌, IsTrue, Some};
ghost use Rattle.id_arena.specs.Names.{place_among};
ghost use Rattle.module_nets.specs.Declarations.{is_wide, width_of};
ghost use Rattle.module_nets.specs.Names.{is_among, text_of};
ghost use Rattle.module_nets.specs.Surveys.{cause_by, unknown_by};

use crate::fault::Cause;
use crate::mention::{Mention, Role};
use crate::name::{is_among, text_at};
use crate::seen::Seen;
use id_arena::Names;
use std::marker::Model;
use verilog_lex::Tokens;
use verilog_tree::IndexRange;

/// The greatest number of bits of a net or an expression.
pub const BIT_LIMIT: u64 = 65_536;

/// The number of bits of a range; one where there is none.
pub fn width_of(range: Option<IndexRange>) -> u64
    ensures { result ≡ width_of range }
{
    match range {
        None => 1,
        Some(range) => {
            if range.left < range.right {
                u64::from(range.right - range.left) + 1
            } else {
                u64::from(range.left - range.right) + 1
            }
        }
    }
}

/// Whether a mention gives a range of too many bits.
fn is_wide(role: Role) -> bool
    ensures { result ≡ is_wide role }
{
    match role {
        Role::Headed(_, range)
        | Role::Directed(_, range)
        | Role::Wired(range)
        | Role::Supplied(range) => width_of(range) > BIT_LIMIT,
        Role::Bare | Role::Owned | Role::Used => false,
    }
}

/// The tables by which mentions are judged: all names of the module, those of the header, and those
/// to which items give a direction.
#[derive(Drop)]
pub(crate) struct Survey<'a> {
    pub(crate) source: &'a [u8],
    pub(crate) tokens: &'a Tokens,
    pub(crate) names: &'a Names,
    pub(crate) heads: &'a Names,
    pub(crate) directed: &'a Names,
}

impl<'a> Model for Survey<'a> {
    ghost use Rattle.module_nets.specs.Surveys.{Survey};

    ghost Value = { Survey };

    ghost view = { λ s. record { source = s.source.now; tokens = s.tokens.now; names = s.names.now; heads = s.heads.now; directed = s.directed.now } };
}

impl<'a> Survey<'a> {
    /// The name at a token.
    fn text(&self, token: u32) -> &[u8]
        ensures { result.now ≡ text_of self.now.source self.now.tokens token }
    {
        text_at(self.source, self.tokens, token)
    }

    /// The place of the name at a token.
    pub(crate) fn place(&self, token: u32) -> u32
        requires { IsTrue (is_among self.now.names (text_of self.now.source self.now.tokens token)) }
        ensures { place_among self.now.names (text_of self.now.source self.now.tokens token) ≡ Some result }
    {
        match self.names.find(self.text(token)) {
            Some(place) => place,
            None => 0,
        }
    }

    /// Whether a mention is of a port without direction, or of a direction without port.
    fn is_unknown(&self, mention: Mention) -> bool
        ensures { result ≡ unknown_by self.now mention }
    {
        match mention.role {
            Role::Bare => !is_among(self.directed, self.text(mention.token)),
            Role::Directed(_, _) => !is_among(self.heads, self.text(mention.token)),
            _ => false,
        }
    }

    /// The fault of a mention of a name that was seen so.
    pub(crate) fn cause(&self, seen: Seen, mention: Mention) -> Option<Cause>
        ensures { result ≡ cause_by self.now seen mention }
    {
        if self.is_unknown(mention) {
            Some(Cause::NotDeclared)
        } else if seen.clashes(mention.role) {
            Some(Cause::NameTwice)
        } else if is_wide(mention.role) {
            Some(Cause::Width)
        } else {
            None
        }
    }
}
