//! The input ports of a design, found by name.

ghost use Rattle.std.specs.Prelude.{◌≡◌, ◌<◌, ◌≤◌, length, IfOk, IfSome};
ghost use Rattle.id_arena.specs.Arena.{item_limit};
ghost use Rattle.domain_groups.specs.Ports.{port_named};

use design_core::Port;
use emu_io::NoMemory;
use id_arena::{ArenaFault, Names};
use std::alloc::Global;
use std::marker::Model;

/// Ports, each of which is found by its name without a walk over all. Of ports with one name the first
/// is found. A clause sees the ports.
#[derive(Drop)]
pub struct PortNames<'d> {
    ports: &'d [Port],
    names: Names,
    /// The place of the first port of each name.
    firsts: Vec<usize>,
}

impl<'d> Model for PortNames<'d> {
    ghost use Rattle.std.specs.Prelude.{List};
    ghost use Rattle.design_core.specs.declared.parts.Port.{Port};
    ghost use Rattle.domain_groups.specs.Ports.{Indexes};

    ghost Value = { List Port };

    ghost view = { λ p. p.ports.now };

    ghost invariant = { λ p. Indexes p.ports.now p.names p.firsts.items };
}

impl<'d> PortNames<'d> {
    /// Takes in the names of the ports, of which there are no more than there are numbers of names.
    pub fn new(alloc: Global, ports: &'d [Port]) -> Result<PortNames<'d>, NoMemory>
        requires { length ports.now ≤ item_limit }
        ensures { IfOk result (λ names. names ≡ ports.now) }
    {
        let mut names = Names::new(alloc);
        let mut firsts = Vec::new(alloc);
        'ports: for place in 0..ports.len() {
            let known = names.len();
            let number = match names.intern(ports[place].name.bytes()) {
                Ok(number) => number,
                Err(ArenaFault::NoMemory) => return Err(NoMemory),
                Err(ArenaFault::Full) => unreachable!(),
            };
            if number == known {
                firsts.push(place)?;
            }
        }
        Ok(PortNames {
            ports,
            names,
            firsts,
        })
    }

    /// The ports.
    pub fn ports(&self) -> &'d [Port]
        ensures { result.now ≡ self.now }
    {
        self.ports
    }

    /// The place of the first port of this name, or `None` where no port has it.
    pub fn find(&self, name: &[u8]) -> Option<usize>
        ensures place { result ≡ port_named self.now name.now }
        ensures within { IfSome result (λ place. place < length self.now) }
    {
        match self.names.find(name) {
            Some(number) => Some(self.firsts[number as usize]),
            None => None,
        }
    }
}
