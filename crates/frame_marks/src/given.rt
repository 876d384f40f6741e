//! The marks that the actions which end in a slot give to registers and read nets.

ghost use Rattle.std.specs.Prelude.{◌≡◌, ◌<◌, ◌==◌, ◌&&◌, not, ◌++◌, ◌∷◌, [], All, OnOk, None, if◌then◌else◌, length, get_or};
ghost use Rattle.emu_machine.specs.declared.schedule.Action.TheVariants as does;
ghost use Rattle.emu_machine.specs.Building.{IsRegisterOf};
ghost use Rattle.emu_machine.specs.Marks.{all_after, all_before, load_mark, no_mark};
ghost use Rattle.emu_machine.specs.Results.{Results};
ghost use Rattle.emu_machine.specs.Netlist.{chip_at, gate_of};
ghost use Rattle.frame_marks.specs.Frames.{mark_in};
ghost use Rattle.frame_marks.specs.Standing.{IsNamed, IsReadPort, IsRegister, IsSending};
ghost use Rattle.frame_marks.specs.Tables.{AreChipTables, AreNets, AreTables, marks_in};
ghost use Rattle.frame_marks.specs.Takes.{AreFree, GivesAll, GivesOne, HasMore, IsFree, IsReadMark, bits_take};

use crate::memories::{has_clock, write_count};
use crate::parts::{ends_of, read_port_of, register_of};
use crate::tables::{Given, MemoryMarks, Start, all_after, all_before, mark_of, memory_of};
use emu_io::NoMemory;
use emu_machine::{Action, EmuRegister};
use id_arena::{ChipId, ChipNetId, Key, MemId, NetId, RegId, Wire, WireId};
use mark_rule::NetMarks;

/// Collects what the actions that end in a slot give, in their order.
pub(crate) fn collect_given(
    start: &Start<'_>,
    actions: &[Action],
    given: &mut Vec<Given<NetMarks>>,
) -> Result<(), NoMemory>
    requires tables { AreTables start.now }
    requires actions { All (IsNamed start.now.results start.now.wires) actions.now }
    ensures free { OnOk result (AreFree start.now.results given.new.items) }
    ensures given { OnOk result (GivesAll start.now actions.now given.new.items) }
{
    given.clear();
    'actions: for action in actions {
        give(start, *action, given)?;
    }
    Ok(())
}

/// Adds what an action gives.
fn give(start: &Start<'_>, action: Action, given: &mut Vec<Given<NetMarks>>) -> Result<(), NoMemory>
    requires tables { AreTables start.now }
    requires action { IsNamed start.now.results start.now.wires action }
    requires free { AreFree start.now.results given.old.items }
    ensures free { OnOk result (AreFree start.now.results given.new.items) }
    ensures given { OnOk result (GivesOne start.now action given.old.items given.new.items) }
{
    match action {
        Action::Input {
            chip,
            register,
            net,
        } => give_input(start, chip, register, net, given),
        Action::Load { chip, register } => give_loaded(start, chip, register, given),
        Action::Send {
            wire,
            net,
            register,
        } => give_sent(start, wire, net, register, given),
        Action::Read { chip, mem, port } => give_read(start, chip, mem, port, given),
        Action::Write { .. } => Ok(()),
    }
}

/// Adds what an `input` gives.
fn give_input(
    start: &Start<'_>,
    chip: ChipId,
    register: RegId,
    net: NetId,
    given: &mut Vec<Given<NetMarks>>,
) -> Result<(), NoMemory>
    requires register { IsRegister start.now.results chip.place register.place }
    requires free { AreFree start.now.results given.old.items }
    ensures free { OnOk result (AreFree start.now.results given.new.items) }
    ensures given { OnOk result (GivesOne start.now (does.Input chip register net) given.old.items given.new.items) }
{
    start.results.stand();
    let _ = net;
    let register = register_of(start.results, chip, register);
    give_net(chip, register.q, NetMarks::only_after(), given)?;
    Ok(())
}

/// Adds what a `load` gives.
fn give_loaded(
    start: &Start<'_>,
    chip: ChipId,
    register: RegId,
    given: &mut Vec<Given<NetMarks>>,
) -> Result<(), NoMemory>
    requires tables { AreTables start.now }
    requires register { IsRegister start.now.results chip.place register.place }
    requires free { AreFree start.now.results given.old.items }
    ensures free { OnOk result (AreFree start.now.results given.new.items) }
    ensures given { OnOk result (GivesOne start.now (does.Load chip register) given.old.items given.new.items) }
{
    start.results.stand();
    let register = register_of(start.results, chip, register);
    match loaded_marks(start, chip, register) {
        Some(marks) => give_net(chip, register.q, marks, given)?,
        None => {}
    }
    Ok(())
}

/// Adds what a `send` gives.
fn give_sent(
    start: &Start<'_>,
    wire: WireId,
    net: ChipNetId,
    register: RegId,
    given: &mut Vec<Given<NetMarks>>,
) -> Result<(), NoMemory>
    requires tables { AreTables start.now }
    requires sending { IsSending start.now.results start.now.wires wire.place net.place register.place }
    requires free { AreFree start.now.results given.old.items }
    ensures free { OnOk result (AreFree start.now.results given.new.items) }
    ensures given { OnOk result (GivesOne start.now (does.Send wire net register) given.old.items given.new.items) }
{
    start.results.stand();
    let ends = ends_of(start.wires, wire);
    let register = register_of(start.results, ends.to, register);
    let marks = arriving(start, ends, wire, net);
    give_net(ends.to, register.q, marks, given)?;
    Ok(())
}

/// Adds what a `read` gives.
fn give_read(
    start: &Start<'_>,
    chip: ChipId,
    mem: MemId,
    port: u32,
    given: &mut Vec<Given<NetMarks>>,
) -> Result<(), NoMemory>
    requires tables { AreTables start.now }
    requires port { IsReadPort start.now.results chip.place mem.place port }
    requires free { AreFree start.now.results given.old.items }
    ensures free { OnOk result (AreFree start.now.results given.new.items) }
    ensures given { OnOk result (GivesOne start.now (does.Read chip mem port) given.old.items given.new.items) }
{
    start.results.stand();
    let marks = read_marks(start, chip, mem, port);
    let read = read_port_of(start.results, chip, mem, port);
    give_bits(chip, read.bits.as_slice(), marks, given)?;
    Ok(())
}

/// Adds marks for a net.
fn give_net(
    chip: ChipId,
    net: ChipNetId,
    marks: NetMarks,
    given: &mut Vec<Given<NetMarks>>,
) -> Result<(), NoMemory>
    ensures { OnOk result (given.new.items ≡ given.old.items ++ record { chip = chip; place = net.place; what = marks } ∷ []) }
{
    given.push(Given {
        chip,
        place: net.place,
        what: marks,
    })?;
    Ok(())
}

/// Adds the same marks for some nets of a chip.
fn give_bits(
    chip: ChipId,
    bits: &[ChipNetId],
    marks: NetMarks,
    given: &mut Vec<Given<NetMarks>>,
) -> Result<(), NoMemory>
    ensures given { OnOk result (HasMore (bits_take chip.place bits.now marks) given.old.items given.new.items) }
    ensures free { OnOk result ((r : Results) → All (λ n. IsFree r chip.place n.place) bits.now → AreFree r given.old.items → AreFree r given.new.items) }
{
    'bits: for net in bits {
        give_net(chip, *net, marks, given)?;
    }
    Ok(())
}

/// What a load gives to a register, if it gives anything.
fn loaded_marks(start: &Start<'_>, chip: ChipId, register: EmuRegister) -> Option<NetMarks>
    requires tables { AreTables start.now }
    requires register { IsRegisterOf (chip_at start.now.results.net chip.place).nets register }
    ensures { result ≡ load_mark (λ n. mark_in start.now.chips chip.place n.place) register.q register.d register.enable }
{
    match (register.d, register.enable) {
        (None, _) => None,
        (Some(d), None) => Some(mark_of(start, chip, d)),
        (Some(d), Some(enable)) => {
            let is_after = mark_of(start, chip, d).after && mark_of(start, chip, enable).after;
            let had_some = mark_of(start, chip, register.q).has_some();
            Some(NetMarks::after_if(is_after && had_some))
        }
    }
}

/// What arrives at the far end of a wire: over a latency of one slot the marks of the net, and over a longer
/// one those of what the wire carries.
fn arriving(start: &Start<'_>, ends: Wire, wire: WireId, net: ChipNetId) -> NetMarks
    requires tables { AreTables start.now }
    requires net { net.place < (chip_at start.now.results.net ends.from.place).nets }
    requires wire { wire.place < length start.now.wires }
    ensures { result ≡ (if ends.latency == 1 then mark_in start.now.chips ends.from.place net.place else get_or start.now.carried wire.place no_mark) }
{
    if ends.latency == 1 {
        mark_of(start, ends.from, net)
    } else {
        start.carried[wire.place() as usize]
    }
}

/// The marks that a read port gives to its bits.
fn read_marks(start: &Start<'_>, chip: ChipId, mem: MemId, port: u32) -> NetMarks
    requires tables { AreTables start.now }
    requires port { IsReadPort start.now.results chip.place mem.place port }
    ensures { IsReadMark start.now chip.place mem.place port result }
{
    start.results.stand();
    let read = read_port_of(start.results, chip, mem, port);
    let address = read.address.as_slice();
    let memory = memory_of(start, chip, mem);
    let before = is_old(start, chip, address, memory);
    if has_clock(start, chip, mem, port) {
        return NetMarks::after_if(before);
    }
    let count = write_count(start, chip, mem);
    let after = is_new(start, chip, address, memory, count);
    NetMarks { before, after }
}

/// Whether an address is that from before, and nothing is written in the frame.
fn is_old(start: &Start<'_>, chip: ChipId, address: &[ChipNetId], memory: MemoryMarks) -> bool
    requires chips { AreChipTables start.now.results start.now.chips }
    requires nets { AreNets start.now.results chip.place address.now }
    ensures { result ≡ (all_before (marks_in start.now.chips chip.place address.now) && not memory.wrote) }
{
    all_before(start, chip, address) && !memory.wrote
}

/// Whether an address is that from after, and all of so many writes are done, none of them out of turn.
fn is_new(
    start: &Start<'_>,
    chip: ChipId,
    address: &[ChipNetId],
    memory: MemoryMarks,
    count: u64,
) -> bool
    requires chips { AreChipTables start.now.results start.now.chips }
    requires nets { AreNets start.now.results chip.place address.now }
    ensures { result ≡ (all_after (marks_in start.now.chips chip.place address.now) && (not memory.broken && (memory.standing == count))) }
{
    all_after(start, chip, address) && !memory.broken && memory.standing == count
}
