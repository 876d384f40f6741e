//! The results that three texts stand for.
ghost use Rattle.std.specs.Prelude.{◌<◌, ◌^◌, IfOk, length};
ghost use Rattle.emu_machine.specs.Building.{AreChips};
ghost use Rattle.result_files.specs.Printed.{AreNamed};
ghost use Rattle.result_files.specs.ThreeTexts.{ChipsAnswer, NetAnswers, ResultAnswers, ResultsAreToldApart};

use crate::map_reader::read_map;
use crate::result_fault::ResultFault;
use crate::schedule_reader::read_schedule;
use emu_io::List;
use emu_machine::{Chip, EmuNet, Results};
use netlist_reader::{netlists_are_told_apart, read_netlist};
use std::alloc::Global;
use verilog_lex::{each_text_has_one_answer, tokens};

/// The results that a netlist, a schedule and a map stand for. A refusal names the first fault: those of
/// the netlist come before those of the schedule, and these before those of the map. The netlist has at
/// most 4,294,967,295 bytes. The names of the schedule's groups are UTF-8, so that it can be printed.
pub fn read_results(
    alloc: Global,
    netlist: &[u8],
    schedule: &[u8],
    map: &[u8],
) -> Result<Results, ResultFault>
    requires { length netlist.now < 2 ^ 32 }
    ensures says { ResultAnswers netlist.now schedule.now map.now result }
    ensures named { IfOk result (λ results. AreNamed results.schedule) }
{
    let net = read_net(alloc, netlist)?;
    let schedule = read_schedule(alloc, schedule)?;
    let map = read_map(alloc, map, net.chips().as_slice())?;
    Ok(Results::new(net, schedule, map))
}

/// The law that three texts stand for at most one result.
pub fn results_are_told_apart()
    ensures { ResultsAreToldApart }
{
    each_text_has_one_answer();
    netlists_are_told_apart();
}

/// The netlist that a text stands for.
fn read_net(alloc: Global, bytes: &[u8]) -> Result<EmuNet, ResultFault>
    requires { length bytes.now < 2 ^ 32 }
    ensures { NetAnswers bytes.now result }
{
    let chips = read_chips(alloc, bytes)?;
    let net = EmuNet::build(alloc, chips)?;
    Ok(net)
}

/// The chips of the netlist that a text is, whatever drives their nets.
fn read_chips(alloc: Global, bytes: &[u8]) -> Result<List<Chip>, ResultFault>
    requires { length bytes.now < 2 ^ 32 }
    ensures says { ChipsAnswer bytes.now result }
    ensures chips { IfOk result AreChips }
{
    let tokens = tokens(alloc, bytes)?;
    let chips = read_netlist(alloc, bytes, &tokens)?;
    Ok(chips)
}
