//! The modules of a text, by their names, and what is known of each before it is entered.

ghost use Rattle.std.specs.Prelude.{◌≡◌, ◌<◌, IfOk, IfSome, Some, length, slice_get};
ghost use Rattle.id_arena.specs.Names.{place_among};
ghost use Rattle.flattening.specs.Faults.{module_tests};
ghost use Rattle.flattening.specs.Places.{module_names};
ghost use Rattle.flattening.specs.Steps.{first_fault};
ghost use Rattle.elaborator.specs.Outcomes.{Finds};
ghost use Rattle.elaborator.specs.Walk.{AreReady, AreReadyRows, IsReady, Orders};

use crate::setting::Setting;
use crate::sockets::{Sockets, port_sockets};
use emu_io::{List, NoMemory};
use flattening::ElabFault;
use id_arena::Names;
use module_nets::{ModuleNets, NetFault, read_nets};
use std::alloc::Global;
use verilog_tree::Module;

/// What is known of a module before any instance of it is entered: its nets, or the first fault of its
/// declarations, which is told where it is entered; and its ports.
#[derive(Drop)]
pub(crate) struct Ready {
    pub(crate) nets: Result<ModuleNets, NetFault>,
    pub(crate) sockets: Sockets,
}

/// The names of all modules, and what is known of each, at the same place.
#[derive(Drop)]
pub(crate) struct Modules {
    names: Names,
    pub(crate) rows: List<Ready>,
}

/// The names of all modules, where no two have one; else the fault of the first that has the name of an
/// earlier one.
fn all_names(alloc: Global, setting: &Setting) -> Result<Names, ElabFault>
    ensures { Finds (first_fault (module_tests setting.now)) (module_names setting.now) result }
{
    let mut names = Names::new(alloc);
    'modules: for module in setting.modules {
        let name = setting.name(module.name);
        if names.find(name).is_some() {
            return Err(ElabFault::NameTwice {
                at: setting.start(module.name),
            });
        }
        names.intern(name)?;
    }
    Ok(names)
}

/// What is known of a module.
fn make_ready(alloc: Global, setting: &Setting, module: &Module) -> Result<Ready, NoMemory>
    ensures { IfOk result (IsReady setting.now module.now) }
{
    let nets = read_nets(alloc, setting.source, setting.tokens, module);
    let sockets = port_sockets(alloc, setting, module)?;
    Ok(Ready { nets, sockets })
}

/// What is known of each module.
fn all_ready(alloc: Global, setting: &Setting) -> Result<List<Ready>, NoMemory>
    ensures { IfOk result (AreReadyRows setting.now setting.now.modules) }
{
    let mut rows = List::new(alloc);
    'modules: for module in setting.modules {
        rows.push(make_ready(alloc, setting, module)?)?;
    }
    Ok(rows)
}

impl Modules {
    /// The modules of a text, where no two have one name; else the first fault of their names.
    pub(crate) fn new(alloc: Global, setting: &Setting) -> Result<Modules, ElabFault>
        ensures fault { Orders (first_fault (module_tests setting.now)) result }
        ensures ready { IfOk result (AreReady setting.now) }
    {
        let names = all_names(alloc, setting)?;
        let rows = all_ready(alloc, setting)?;
        Ok(Modules { names, rows })
    }

    /// The place of the first module of a name.
    pub(crate) fn find(&self, setting: &Setting, name: &[u8]) -> Option<u32>
        requires { AreReady setting.now self.now }
        ensures place { result ≡ place_among (module_names setting.now) name.now }
        ensures within { IfSome result (λ place. place < length setting.now.modules) }
    {
        self.names.find(name)
    }

    /// What is known of the module at a place.
    pub(crate) fn ready(&self, setting: &Setting, place: u32) -> &Ready
        requires ready { AreReady setting.now self.now }
        requires place { place < length setting.now.modules }
        ensures { slice_get self.now.rows place ≡ Some result.now }
    {
        self.rows.get(u64::from(place))
    }
}
