//! Reading modules.

ghost use Rattle.std.specs.Prelude.{◌≡◌, ◌<◌, ◌≤◌, [], ◌∷◌, IfOk, length};
ghost use Rattle.verilog_tree.specs.Grammar.{IsModule};
ghost use Rattle.verilog_tree.specs.Predict.{Answers, SourceAnswers, module_};

use crate::header::read_head;
use crate::item::read_items;
use crate::reader::{Read, Reader, Stop};
use crate::source::{Module, Source};
use crate::terminal::Terminal;
use emu_io::List;
use std::alloc::Global;

/// Reads modules up to the end.
pub(crate) fn read_source(alloc: Global, reader: &Reader) -> Result<Source, Stop>
    ensures { SourceAnswers reader.now result }
{
    let mut modules = List::new(alloc);
    let mut at = 0;
    'modules: while reader.at(at).is_some() {
        let module = read_module(alloc, reader, at)?;
        modules.push(module.node)?;
        at = module.next;
    }
    Ok(Source { modules })
}

/// Reads a module.
fn read_module(alloc: Global, reader: &Reader, from: u32) -> Result<Read<Module>, Stop>
    requires { from ≤ length reader.now }
    ensures stands { Answers reader.now (module_ ∷ []) (IsModule reader.now) from result }
    ensures further { IfOk result (λ r. from < r.next) }
{
    let name = reader.expect(from, Terminal::Module)?;
    let after = reader.expect(name, Terminal::Name)?;
    let ports = read_head(alloc, reader, after)?;
    let body = reader.expect(ports.next, Terminal::Semicolon)?;
    let items = read_items(alloc, reader, body)?;
    Ok(Read {
        node: Module {
            name,
            ports: ports.node,
            items: items.node,
        },
        next: items.next,
    })
}
