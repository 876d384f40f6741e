//! What an expression is read in.

ghost use Rattle.std.specs.Prelude.{◌≡◌};
ghost use Rattle.module_bits.specs.Names.{AreNumbered, target_at};
ghost use Rattle.module_bits.specs.Readings.{IsNumbered};

use crate::target::{Target, bits_in};
use module_nets::{ModuleNets, text_at};
use std::marker::Model;
use verilog_lex::Tokens;
use verilog_tree::IndexRange;

/// A text, its tokens, the nets of a module of it, and how many nets of the design come before those
/// of the instance that is meant: the number of its first net. Nets 0 and 1 are the constants.
#[derive(Drop)]
pub struct Context<'a> {
    pub source: &'a [u8],
    pub tokens: &'a Tokens,
    pub nets: &'a ModuleNets,
    pub base: u32,
}

impl<'a> Model for Context<'a> {
    ghost use Rattle.module_bits.specs.Names.{Context};

    ghost Value = { Context };

    ghost view = { λ c. record { source = c.source.now; tokens = c.tokens.now; nets = c.nets.now; base = c.base } };
}

impl<'a> Context<'a> {
    /// What the name at a token stands for, with this select or none.
    pub(crate) fn target(&self, token: u32, select: Option<IndexRange>) -> Target
        requires { AreNumbered self.now.base self.now.nets }
        ensures is { result ≡ target_at self.now token select }
        ensures within { IsNumbered result }
    {
        match self.nets.find(text_at(self.source, self.tokens, token)) {
            None => Target::NoNet,
            Some(place) => {
                let net = self.nets.net(place);
                bits_in(u64::from(self.base) + net.first, net.range, select)
            }
        }
    }
}
