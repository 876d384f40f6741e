//! A7 of a register: what stands at its pins.

ghost use Rattle.std.specs.Prelude.{◌≡◌, Some, false};
ghost use Rattle.std.specs.Option.{option_map_or};
ghost use Rattle.emu_machine.specs.declared.map.Subject.TheVariants.{Net};
ghost use Rattle.emu_machine.specs.Origins.{has_subject, is_net_subject, loading_fits, loading_of, register_fits};

use crate::ShapeCase;
use design_core::Driver;
use emu_machine::{EmuRegister, Subject};
use id_arena::{ChipId, ChipNetId, NetId};

/// Whether the pins of a register stand for what its form asks.
pub(crate) fn register_fits(case: &ShapeCase, chip: ChipId, register: EmuRegister) -> bool
    ensures { result ≡ register_fits case.now.design case.now.results chip.place register }
{
    let what = case.subject(chip, register.q);
    match (register.d, register.enable) {
        (None, None) => is_net(case, what),
        (None, Some(_)) => false,
        (Some(d), None) => is_net(case, what) && has(case, chip, d, what),
        (Some(d), Some(enable)) => is_loaded(case, chip, d, enable, what),
    }
}

/// Whether a subject is a net of the design.
fn is_net(case: &ShapeCase, what: Option<Subject>) -> bool
    ensures { result ≡ is_net_subject case.now.design what }
{
    match what {
        Some(Subject::Net(net)) => case.has_net(net),
        _ => false,
    }
}

/// Whether a net of a chip has a subject that is there.
fn has(case: &ShapeCase, chip: ChipId, net: ChipNetId, what: Option<Subject>) -> bool
    ensures { result ≡ option_map_or (has_subject case.now.results chip.place net) what false }
{
    match what {
        Some(what) => case.has_subject(chip, net, what),
        None => false,
    }
}

/// Whether the D and the enable of a register are those under which its Q with this subject is loaded.
fn is_loaded(
    case: &ShapeCase,
    chip: ChipId,
    d: ChipNetId,
    enable: ChipNetId,
    what: Option<Subject>,
) -> bool
    ensures { result ≡ loading_fits case.now.results chip.place d enable (loading_of case.now.design what) }
{
    match what {
        Some(Subject::Net(net)) => is_net_loaded(case, chip, d, enable, net),
        _ => false,
    }
}

/// The same of a net: the output of a flip-flop, or a bit of a read port with a clock.
fn is_net_loaded(
    case: &ShapeCase,
    chip: ChipId,
    d: ChipNetId,
    enable: ChipNetId,
    net: NetId,
) -> bool
    ensures { result ≡ loading_fits case.now.results chip.place d enable (loading_of case.now.design (Some (Net net))) }
{
    match case.driver(net) {
        Driver::Elem(element) => {
            case.flop(element).is_some()
                && case.has_subject(chip, d, Subject::Next(element))
                && case.has_subject(chip, enable, Subject::Take(element))
        }
        Driver::Read(mem, port, bit) => match case.read(mem, port) {
            Some(found) => {
                found.clock.is_some()
                    && case.has_subject(chip, d, Subject::Old(mem, port, bit))
                    && case.has_subject(chip, enable, Subject::TakeRead(mem, port))
            }
            None => false,
        },
        _ => false,
    }
}
