//! The results of a compiler, whoever it was.
ghost use Rattle.std.specs.Prelude.{◌≡◌};
ghost use Rattle.emu_machine.specs.Building.{IsBuilt};
ghost use Rattle.emu_machine.specs.Results.{ResultsStand};

use crate::{EmuNet, Schedule, StateMap};
use std::marker::Model;

/// A netlist for each chip, a schedule, and a map. A clause sees the three as a record.
///
/// The map has an entry for each net, register, memory and read port of the netlist, and none more; its
/// outputs are nets that are there. No slot has more than 4,294,967,295 actions.
#[derive(Debug, Drop)]
pub struct Results {
    net: EmuNet,
    schedule: Schedule,
    map: StateMap,
}

impl Model for Results {
    ghost use Rattle.emu_machine.specs.Results as results;
    ghost use Rattle.emu_machine.specs.Results.{ResultsStand};

    ghost Value = { results.Results };

    ghost view = { λ r. record {
      net = r.net;
      schedule = r.schedule;
      map = r.map;
    } };

    ghost invariant = { λ r. ResultsStand (record {
      net = r.net;
      schedule = r.schedule;
      map = r.map;
    }) };
}

impl Results {
    /// The results of these three parts.
    pub fn new(net: EmuNet, schedule: Schedule, map: StateMap) -> Results
        requires { ResultsStand (record { net = net; schedule = schedule; map = map }) }
        ensures { result ≡ record {
          net = net;
          schedule = schedule;
          map = map;
        } }
    {
        Results { net, schedule, map }
    }

    /// The netlist.
    pub fn net(&self) -> &EmuNet
        ensures { result.now ≡ self.now.net }
    {
        &self.net
    }

    /// The schedule.
    pub fn schedule(&self) -> &Schedule
        ensures { result.now ≡ self.now.schedule }
    {
        &self.schedule
    }

    /// The map.
    pub fn map(&self) -> &StateMap
        ensures { result.now ≡ self.now.map }
    {
        &self.map
    }

    /// What holds of all results, for their callers.
    pub fn stand(&self)
        ensures results { ResultsStand self.now }
        ensures netlist { IsBuilt self.now.net }
    {
        self.net.stands();
    }
}
