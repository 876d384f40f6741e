//! Building a design from its parts.

ghost use Rattle.std.specs.Prelude.{◌≡◌, IfErr, IfOk, length};
ghost use Rattle.design_core.specs.Faults.{AreGood, AreSingle, AreThere, IsDriven, IsOnce, TellsBad, TellsDrivers};
ghost use Rattle.design_core.specs.Limits.{IsCountable};
ghost use Rattle.design_core.specs.Names.{IsNamed};
ghost use Rattle.design_core.specs.Tables.{AreDrivers, AreOwners};

use crate::drives::{TableFault, driven_nets, drivers_of};
use crate::good::around_good;
use crate::limits::limit_passed;
use crate::names::net_text;
use crate::owners::{all_owners, owners_of};
use crate::reads::least_undriven;
use crate::{Design, DesignFault, Driver, Parts};
use id_arena::{ElemId, Key};
use std::alloc::Global;

impl Design {
    ghost use Rattle.std.specs.Prelude.{◌≡◌};
    ghost use Rattle.design_core.specs.Faults.{Answers};
    ghost use Rattle.design_core.specs.Limits.{IsCountable};

    /// The design of these parts. It takes them in each case.
    ///
    /// A fault is the first of these: an element that is bad, at the least element; something else
    /// that is bad, told with the number of elements; a limit passed, of inputs, nets, elements and
    /// words in this order; the least net with two drivers; the least net that is read and has none.
    pub fn build(alloc: Global, parts: Parts) -> Result<Design, DesignFault>
        requires { IsCountable parts }
        ensures { Answers parts result }
    {
        let owners = match good_owners(alloc, &parts) {
            Ok(owners) => owners,
            Err(fault) => return Err(fault),
        };
        if let Some(which) = limit_passed(&parts) {
            return Err(DesignFault::Limit { which });
        }
        let drivers = match sole_drivers(alloc, &parts) {
            Ok(drivers) => drivers,
            Err(fault) => return Err(fault),
        };
        Ok(Design::from_parts(parts, drivers, owners))
    }
}

/// The element of each memory, where the parts are good.
fn good_owners(alloc: Global, parts: &Parts) -> Result<Vec<ElemId>, DesignFault>
    requires { IsCountable parts.now }
    ensures good { IfOk result (λ owners. AreGood parts.now) }
    ensures single { IfOk result (λ owners. AreSingle parts.now) }
    ensures owners { IfOk result (λ owners. AreOwners parts.now owners.items) }
    ensures fault { IfErr result (TellsBad parts.now) }
{
    let found = owners_of(alloc, parts)?;
    let rest = ElemId::of(parts.elements.len() as u32);
    if !around_good(parts) {
        return Err(DesignFault::BadNet { elem: rest });
    }
    let Some(owners) = all_owners(alloc, &found)? else {
        return Err(DesignFault::BadNet { elem: rest });
    };
    Ok(owners)
}

/// The driver of each net, where no net has two, and each that is read has one.
fn sole_drivers(alloc: Global, parts: &Parts) -> Result<Vec<Driver>, DesignFault>
    requires there { AreThere parts.now }
    requires named { IsNamed parts.now }
    requires few { IsCountable parts.now }
    ensures drivers { IfOk result (λ drivers. AreDrivers parts.now drivers.items) }
    ensures once { IfOk result (λ drivers. IsOnce parts.now) }
    ensures driven { IfOk result (λ drivers. IsDriven parts.now) }
    ensures fault { IfErr result (TellsDrivers parts.now) }
{
    let table = driven_nets(alloc, parts)?;
    let drivers = match drivers_of(alloc, &table) {
        Ok(drivers) => drivers,
        Err(TableFault::NoMemory) => return Err(DesignFault::NoMemory),
        Err(TableFault::Twice(net)) => {
            let name = net_text(alloc, parts, net)?;
            return Err(DesignFault::TwoDrivers { net, name });
        }
    };
    if let Some(net) = least_undriven(&table, parts) {
        let name = net_text(alloc, parts, net)?;
        return Err(DesignFault::Undriven { net, name });
    }
    Ok(drivers)
}
