//! Reading instances and their connections.

ghost use Rattle.std.specs.Prelude.{◌≡◌, ◌≤◌, [], ◌∷◌, length};
ghost use Rattle.verilog_tree.specs.Grammar.{IsInst, IsLink, IsLinks};
ghost use Rattle.verilog_tree.specs.Predict.{Answers, Closed, links};

use crate::expression::read_expr;
use crate::part::{Part, read_list};
use crate::reader::{Read, Reader, Stop};
use crate::source::{Expr, Inst, Links, NamedLink};
use crate::terminal::Terminal;
use std::alloc::Global;

/// A place of connections by order, which may be empty.
impl Part for Option<Expr> {
    ghost use Rattle.verilog_tree.specs.Grammar.{IsExpr, Optional};
    ghost use Rattle.verilog_tree.specs.Predict.{place};

    ghost symbol = { place };

    ghost stands = { λ ts. Optional (IsExpr ts) };

    fn read(alloc: Global, reader: &Reader, from: u32) -> Result<Read<Option<Expr>>, Stop> {
        if !reader.starts_expr(from) {
            return Ok(Read {
                node: None,
                next: from,
            });
        }
        let expr = read_expr(alloc, reader, from)?;
        Ok(Read {
            node: Some(expr.node),
            next: expr.next,
        })
    }
}

/// A connection by name.
impl Part for NamedLink {
    ghost use Rattle.verilog_tree.specs.Grammar.{IsLink};
    ghost use Rattle.verilog_tree.specs.Predict.{link};

    ghost symbol = { link };

    ghost stands = { IsLink };

    fn read(alloc: Global, reader: &Reader, from: u32) -> Result<Read<NamedLink>, Stop> {
        let port = reader.expect(from, Terminal::Dot)?;
        let after = reader.expect(port, Terminal::Name)?;
        let open = reader.expect(after, Terminal::OpenParen)?;
        let expr = <Option<Expr>>::read(alloc, reader, open)?;
        let next = reader.expect(expr.next, Terminal::CloseParen)?;
        Ok(Read {
            node: NamedLink {
                port,
                expr: expr.node,
            },
            next,
        })
    }
}

/// One instance of an item.
impl Part for Inst {
    ghost use Rattle.verilog_tree.specs.Grammar.{IsInst};
    ghost use Rattle.verilog_tree.specs.Predict.{inst};

    ghost symbol = { inst };

    ghost stands = { IsInst };

    fn read(alloc: Global, reader: &Reader, from: u32) -> Result<Read<Inst>, Stop> {
        let after = reader.expect(from, Terminal::Name)?;
        let open = reader.expect(after, Terminal::OpenParen)?;
        let links = read_links(alloc, reader, open)?;
        Ok(Read {
            node: Inst {
                name: from,
                links: links.node,
            },
            next: links.next,
        })
    }
}

/// Reads the connections of an instance, and the parenthesis after them.
fn read_links(alloc: Global, reader: &Reader, from: u32) -> Result<Read<Links>, Stop>
    requires { from ≤ length reader.now }
    ensures { Answers reader.now (links ∷ []) (Closed reader.now (IsLinks reader.now) Terminal.CloseParen) from result }
{
    match reader.at(from) {
        Some(Terminal::CloseParen) => Ok(Read {
            node: Links::Empty,
            next: from + 1,
        }),
        Some(Terminal::Dot) => {
            let named = read_list::<NamedLink>(alloc, reader, from, Terminal::CloseParen)?;
            Ok(Read {
                node: Links::Named(named.node),
                next: named.next,
            })
        }
        _ => {
            let places = read_list::<Option<Expr>>(alloc, reader, from, Terminal::CloseParen)?;
            Ok(Read {
                node: Links::Ordered(places.node),
                next: places.next,
            })
        }
    }
}
