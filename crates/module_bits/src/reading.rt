//! An expression as far as it is read, from its end to its beginning.

ghost use Rattle.std.specs.Prelude.{[], ◌≡◌, ◌≤◌, ◌++◌, ◌+◌, ◌||◌, None, OnOk, drop, false, length, map, nat_lt, not, slice_range};
ghost use Rattle.std.specs.Int.{bit_at};
ghost use Rattle.std.specs.List.{range_with_len};
ghost use Rattle.module_nets.specs.Declarations.{most_bits};
ghost use Rattle.module_bits.specs.Bits.{constant_bits, net_at, times};
ghost use Rattle.module_bits.specs.Names.{AreNumbered};
ghost use Rattle.module_bits.specs.Readings.{AddsBits, AddsName, nothing};

use crate::context::Context;
use crate::target::Target;
use emu_io::{List, NoMemory};
use id_arena::{Key, NetId};
use module_nets::BIT_LIMIT;
use std::alloc::Global;
use verilog_lex::{TokenKind, Tokens};
use verilog_tree::IndexRange;

/// The bits that were read, whether they are too many, the leftmost name that is no net, and the
/// leftmost with a select that its net does not have. Where the bits are too many no more are added.
#[derive(Drop)]
pub(crate) struct Reading {
    pub(crate) bits: List<NetId>,
    pub(crate) wide: bool,
    pub(crate) unknown: Option<u32>,
    pub(crate) misplaced: Option<u32>,
}

/// AddsBits so many nets in a row.
fn push_nets(out: &mut List<NetId>, low: u64, count: u64) -> Result<(), NoMemory>
    requires { low + count ≤ 4294967296 }
    ensures { OnOk result (out.new ≡ out.old ++ map net_at (range_with_len low count)) }
{
    'nets: for k in 0..count {
        out.push(NetId::of((low + k) as u32))?;
    }
    Ok(())
}

/// AddsBits the lowest bits of a number, each as net 0 or net 1.
fn push_value(out: &mut List<NetId>, size: u32, value: u128) -> Result<(), NoMemory>
    ensures { OnOk result (out.new ≡ out.old ++ map (λ i. net_at (bit_at value i)) (range_with_len 0 size)) }
{
    let mut rest = value;
    'bits: for _ in 0..size {
        out.push(NetId::of((rest % 2) as u32))?;
        rest /= 2;
    }
    Ok(())
}

/// AddsBits the items from a place up to another one again.
fn push_again(out: &mut List<NetId>, start: u64, end: u64) -> Result<(), NoMemory>
    requires { (start ≤ end) × (end ≤ length out.old) }
    ensures { OnOk result (out.new ≡ out.old ++ slice_range out.old start end) }
{
    'items: for place in start..end {
        let item = *out.get(place);
        out.push(item)?;
    }
    Ok(())
}

/// AddsBits the items from a place on so many times again.
fn push_copies(out: &mut List<NetId>, start: u64, more: u64) -> Result<(), NoMemory>
    requires { start ≤ length out.old }
    ensures { OnOk result (out.new ≡ out.old ++ times more (drop start out.old)) }
{
    let end = out.len();
    'copies: for _ in 0..more {
        push_again(out, start, end)?;
    }
    Ok(())
}

impl Reading {
    /// Nothing is read.
    pub(crate) fn new(alloc: Global) -> Reading
        ensures { result ≡ nothing }
    {
        Reading {
            bits: List::new(alloc),
            wide: false,
            unknown: None,
            misplaced: None,
        }
    }

    /// Whether so many bits more are not too many; if they are, this is noted.
    fn makes_room(&mut self, count: u64) -> bool
        ensures is { result ≡ not (self.old.wide || nat_lt most_bits (length self.old.bits + count)) }
        ensures noted { self.new ≡ record self.old { wide = self.old.wide || nat_lt most_bits (length self.old.bits + count) } }
    {
        let room = count <= BIT_LIMIT && self.bits.len() <= BIT_LIMIT - count;
        self.wide = self.wide || !room;
        !self.wide
    }

    /// AddsBits so many nets in a row.
    fn add_nets(&mut self, low: u64, count: u64) -> Result<(), NoMemory>
        requires { low + count ≤ 4294967296 }
        ensures { OnOk result (AddsBits self.old self.new (map net_at (range_with_len low count)) None None) }
    {
        if self.makes_room(count) {
            push_nets(&mut self.bits, low, count)?;
        }
        Ok(())
    }

    /// AddsBits the lowest bits of a number.
    fn add_value(&mut self, size: u32, value: u128) -> Result<(), NoMemory>
        ensures { OnOk result (AddsBits self.old self.new (map (λ i. net_at (bit_at value i)) (range_with_len 0 size)) None None) }
    {
        if self.makes_room(u64::from(size)) {
            push_value(&mut self.bits, size, value)?;
        }
        Ok(())
    }

    /// AddsBits the constant at a token.
    pub(crate) fn add_constant(&mut self, tokens: &Tokens, token: u32) -> Result<(), NoMemory>
        ensures { OnOk result (AddsBits self.old self.new (constant_bits tokens.now token) None None) }
    {
        if token >= tokens.len() {
            return Ok(());
        }
        match tokens.token(token).kind {
            TokenKind::Constant { size, value } => self.add_value(size, value),
            _ => Ok(()),
        }
    }

    /// AddsBits the name at a token, with this select or none.
    pub(crate) fn add_name(
        &mut self,
        context: &Context,
        token: u32,
        select: Option<IndexRange>,
    ) -> Result<(), NoMemory>
        requires { AreNumbered context.now.base context.now.nets }
        ensures { OnOk result (AddsName context.now self.old self.new token select) }
    {
        match context.target(token, select) {
            Target::NoNet => self.unknown = Some(token),
            Target::NoBits => self.misplaced = Some(token),
            Target::Bits { low, count } => self.add_nets(low, count)?,
        }
        Ok(())
    }

    /// AddsBits the bits from a place on so many times again.
    pub(crate) fn add_copies(&mut self, start: u64, more: u64) -> Result<(), NoMemory>
        requires { self.old.wide ≡ false → start ≤ length self.old.bits }
        ensures { OnOk result (AddsBits self.old self.new (times more (drop start self.old.bits)) None None) }
    {
        if self.wide {
            return Ok(());
        }
        let count = self.bits.len() - start;
        if self.makes_room(count.saturating_mul(more)) {
            push_copies(&mut self.bits, start, more)?;
        }
        Ok(())
    }
}
