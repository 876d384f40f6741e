//! What is given, and the instance of a module that is flattened.

ghost use Rattle.std.specs.Prelude.{◌≡◌, ◌≤◌, ◌<◌, ◌+◌, ◌++◌, IfOk, OnOk, Some, length, map, slice_get};
ghost use Rattle.std.specs.List.{range_with_len};
ghost use Rattle.module_bits.specs.Bits.{net_at};
ghost use Rattle.module_bits.specs.Names.{AreNumbered};
ghost use Rattle.flattening.specs.Places.{context_of, name_in, named_bits, start_in};

use cell_table::CellTable;
use emu_io::{List, NoMemory};
use id_arena::{Key, NetId};
use module_bits::Context;
use module_nets::{ModuleNets, start_of, text_at, width_of};
use std::alloc::Global;
use std::marker::Model;
use verilog_lex::Tokens;
use verilog_tree::Module;

/// A text, its tokens, the modules of its tree, and a table of cells.
#[derive(Drop)]
pub struct Setting<'a> {
    pub source: &'a [u8],
    pub tokens: &'a Tokens,
    pub modules: &'a [Module],
    pub cells: &'a CellTable,
}

impl<'a> Model for Setting<'a> {
    ghost use Rattle.std.specs.Coded.{codes};
    ghost use Rattle.verilog_tree.specs.contracts.source.Expr as e;
    ghost use Rattle.flattening.specs.Places.{Given};

    ghost Value = { Given };

    ghost coded = { Prim.hlevel (codes, e.the_row.coded) };

    ghost view = { λ s. record { source = s.source.now; tokens = s.tokens.now; modules = s.modules.now; cells = s.cells.now } };
}

impl<'a> Setting<'a> {
    /// The name that a token is.
    pub fn name(&self, token: u32) -> &'a [u8]
        ensures { result.now ≡ name_in self.now token }
    {
        text_at(self.source, self.tokens, token)
    }

    /// The module at a place of the text.
    pub(crate) fn module_at(&self, place: u32) -> &'a Module
        requires { place < length self.now.modules }
        ensures { slice_get self.now.modules place ≡ Some result.now }
    {
        &self.modules[place as usize]
    }

    /// The byte at which a token begins.
    pub fn start(&self, token: u32) -> u32
        ensures { result ≡ start_in self.now token }
    {
        start_of(self.tokens, token)
    }
}

/// An instance of a module: the number of its scope, the number of its first net, the modules around it by
/// their places in the text, its own first, its module, and the nets of this.
#[derive(Drop)]
pub struct Instance<'a> {
    pub scope: u32,
    pub base: u32,
    pub around: &'a [u32],
    pub module_of: &'a Module,
    pub nets: &'a ModuleNets,
}

impl<'a> Model for Instance<'a> {
    ghost use Rattle.std.specs.Coded.{codes};
    ghost use Rattle.verilog_tree.specs.contracts.source.Expr as e;
    ghost use Rattle.flattening.specs.Places as places;

    ghost Value = { places.Inside };

    ghost coded = { Prim.hlevel (codes, e.the_row.coded) };

    ghost view = { λ i. record { scope = i.scope; base = i.base; around = i.around.now; module_of = i.module_of.now; nets = i.nets.now } };
}

impl<'a> Instance<'a> {
    /// What the expressions of the instance are read in.
    pub fn context(&self, setting: &Setting<'a>) -> Context<'a>
        ensures { result ≡ context_of setting.now self.now }
    {
        Context {
            source: setting.source,
            tokens: setting.tokens,
            nets: self.nets,
            base: self.base,
        }
    }

    /// The nets of a name in the instance, from bit 0 on; none where the module has no such net.
    pub fn bits_named(&self, alloc: Global, name: &[u8]) -> Result<List<NetId>, NoMemory>
        requires { AreNumbered self.now.base self.now.nets }
        ensures { IfOk result (λ bits. bits ≡ named_bits self.now name.now) }
    {
        let mut bits = List::new(alloc);
        if let Some(place) = self.nets.find(name) {
            let net = self.nets.net(place);
            let low = u64::from(self.base) + net.first;
            push_nets(&mut bits, low, width_of(net.range))?;
        }
        Ok(bits)
    }
}

/// Puts so many nets in a row behind others.
fn push_nets(bits: &mut List<NetId>, low: u64, count: u64) -> Result<(), NoMemory>
    requires { low + count ≤ 4294967296 }
    ensures { OnOk result (bits.new ≡ bits.old ++ map net_at (range_with_len low count)) }
{
    'nets: for k in 0..count {
        bits.push(NetId::of((low + k) as u32))?;
    }
    Ok(())
}
