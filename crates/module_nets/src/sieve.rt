//! Which of the names of a module count.

ghost use Rattle.std.specs.Prelude.{◌≡◌};
ghost use Rattle.module_nets.specs.Mentions.{counts_use, is_kept};

use crate::mention::{Mention, Role};
use crate::name::{is_among, is_implicit, text_at};
use id_arena::Names;
use std::marker::Model;
use verilog_lex::Tokens;

/// Tells which mentions are gathered: uses alone may be left out. A use counts where an undeclared
/// name becomes a wire and the name is not among those that are declared.
#[derive(Drop)]
pub(crate) struct Sieve<'a> {
    pub(crate) source: &'a [u8],
    pub(crate) tokens: &'a Tokens,
    pub(crate) declared: &'a Names,
    pub(crate) uses: bool,
}

impl<'a> Model for Sieve<'a> {
    ghost use Rattle.module_nets.specs.Mentions.{Sieve};

    ghost Value = { Sieve };

    ghost view = { λ s. record { source = s.source.now; tokens = s.tokens.now; declared = s.declared.now; uses = s.uses } };
}

impl<'a> Sieve<'a> {
    /// Whether a use counts.
    fn keeps_use(&self, token: u32) -> bool
        ensures { result ≡ counts_use self.now token }
    {
        self.uses
            && is_implicit(self.tokens, token)
            && !is_among(self.declared, text_at(self.source, self.tokens, token))
    }

    /// Whether a mention counts.
    pub(crate) fn keeps(&self, mention: Mention) -> bool
        ensures { result ≡ is_kept self.now mention }
    {
        match mention.role {
            Role::Used => self.keeps_use(mention.token),
            _ => true,
        }
    }
}
