//! What the actions that end in a slot give to their registers and read nets.

ghost use Rattle.std.specs.Prelude.{◌≡◌, ◌<◌, ◌==◌, false, if◌then◌else◌, Some, All, [], length, get_or, slice_get, slice_set};
ghost use Rattle.emu_machine.specs.Netlist.{chip_at};
ghost use Rattle.emu_machine.specs.State.{loaded_value, read_port};
ghost use Rattle.cycle_sim.specs.Passes.{rows_of};
ghost use Rattle.cycle_sim.specs.Standing.{CanTake, IsReadPort, IsRegister, RegisterStands};
ghost use Rattle.cycle_sim.specs.Tables.{HaveSizes, HaveWords, IsReady};
ghost use Rattle.cycle_sim.specs.Takes.{HasTaken, HasTakenOne};
ghost use Rattle.cycle_sim.specs.Values.{value_in};

use crate::gates::value_of;
use crate::parts::chip_of;
use crate::words::{ChipWords, address_of, show_on_chip, word_of};
use chip_pass::ChipPass;
use emu_io::List;
use emu_machine::{Action, EmuRead, EmuRegister, Results};
use id_arena::{ChipId, ChipNetId, Key, MemId, RegId, Wire, WireId};

/// Gives each register and read net that some actions end in its value. All values are read from the nets as
/// they were shown, the words as they stood, and the wires as they carried, before, so no action sees what
/// another one gives. The actions are done from the last on, so that of several for one target the first counts.
#[tactic(auto, using(crate::proofs::Taking::none_taken))]
pub(crate) fn take_all(
    results: &Results,
    wires: &[Wire],
    shown: &[ChipPass<'_, bool>],
    words: &[ChipWords],
    outside: &[bool],
    carried: &[bool],
    actions: &[Action],
    held: &mut [List<bool>],
)
    requires ready { IsReady results.now wires.now (length outside.now) (rows_of shown.now) }
    requires actions { All (CanTake results.now wires.now (length outside.now)) actions.now }
    requires carried { length carried.now ≡ length wires.now }
    requires words { HaveWords results.now words.now }
    requires held { HaveSizes results.now held.old }
    ensures sizes { HaveSizes results.now held.new }
    ensures taken { HasTaken results.now wires.now (rows_of shown.now) words.now outside.now carried.now actions.now held.old held.new }
{
    let mut left = actions.len();
    'actions: while left > 0 {
        left -= 1;
        let action = action_at(actions, left);
        take(results, wires, shown, words, outside, carried, action, held);
    }
}

/// The action at a place.
pub(crate) fn action_at(actions: &[Action], place: usize) -> &Action
    requires { place < length actions.now }
    ensures { slice_get actions.now place ≡ Some result.now }
{
    &actions[place]
}

/// Gives the register, or the read nets, of an action their value.
#[tactic(auto, using(crate::proofs::Taking::put_sizes))]
fn take(
    results: &Results,
    wires: &[Wire],
    shown: &[ChipPass<'_, bool>],
    words: &[ChipWords],
    outside: &[bool],
    carried: &[bool],
    action: &Action,
    held: &mut [List<bool>],
)
    requires ready { IsReady results.now wires.now (length outside.now) (rows_of shown.now) }
    requires action { CanTake results.now wires.now (length outside.now) action.now }
    requires carried { length carried.now ≡ length wires.now }
    requires words { HaveWords results.now words.now }
    requires held { HaveSizes results.now held.old }
    ensures sizes { HaveSizes results.now held.new }
    ensures taken { HasTakenOne results.now wires.now (rows_of shown.now) words.now outside.now carried.now action.now held.old held.new }
{
    match *action {
        Action::Input {
            chip,
            register,
            net,
        } => {
            let register = register_of(results, chip, register);
            put(held, chip, register.q, bit_at(outside, net.place()));
        }
        Action::Load { chip, register } => {
            let register = register_of(results, chip, register);
            match loaded_value(register, table_of(shown, chip)) {
                None => {}
                Some(value) => put(held, chip, register.q, value),
            }
        }
        Action::Send {
            wire,
            net,
            register,
        } => {
            let ends = ends_of(wires, wire);
            let register = register_of(results, ends.to, register);
            let value = arriving(ends, wire, net, shown, carried);
            put(held, ends.to, register.q, value);
        }
        Action::Read { chip, mem, port } => {
            let port = read_port_of(results, chip, mem, port);
            let address = address_of(port.address.as_slice(), table_of(shown, chip));
            let word = word_of(words, chip, mem, address);
            show_on_chip(held, chip, port.bits.as_slice(), word);
        }
        Action::Write { .. } => {}
    }
}

/// The value at a place of a table.
fn bit_at(table: &[bool], place: u32) -> bool
    requires { place < length table.now }
    ensures { result ≡ get_or table.now place false }
{
    table[place as usize]
}

/// A wire's ends and latency.
pub(crate) fn ends_of(wires: &[Wire], wire: WireId) -> Wire
    requires { wire.place < length wires.now }
    ensures { slice_get wires.now wire.place ≡ Some result }
{
    wires[wire.place() as usize]
}

/// What arrives at the far end of a wire: over a latency of one slot what the net shows, and over a longer
/// one what the wire has carried.
fn arriving(
    ends: Wire,
    wire: WireId,
    net: ChipNetId,
    shown: &[ChipPass<'_, bool>],
    carried: &[bool],
) -> bool
    requires chip { ends.from.place < length (rows_of shown.now) }
    requires net { net.place < length (get_or (rows_of shown.now) ends.from.place []) }
    requires wire { wire.place < length carried.now }
    ensures { result ≡ (if ends.latency == 1 then value_in (get_or (rows_of shown.now) ends.from.place []) net else get_or carried.now wire.place false) }
{
    if ends.latency == 1 {
        value_of(table_of(shown, ends.from), net)
    } else {
        bit_at(carried, wire.place())
    }
}

/// What the nets of a chip show.
pub(crate) fn table_of<'a>(shown: &'a [ChipPass<'_, bool>], chip: ChipId) -> &'a [bool]
    requires { chip.place < length (rows_of shown.now) }
    ensures { result.now ≡ get_or (rows_of shown.now) chip.place [] }
{
    shown[chip.place() as usize].values()
}

/// The register of these numbers.
pub(crate) fn register_of(results: &Results, chip: ChipId, register: RegId) -> EmuRegister
    requires { IsRegister results.now chip.place register.place }
    ensures { slice_get (chip_at results.now.net chip.place).registers register.place ≡ Some result }
{
    *chip_of(results, chip.place() as u64)
        .registers
        .get(register.place() as u64)
}

/// The read port of these numbers.
pub(crate) fn read_port_of(results: &Results, chip: ChipId, mem: MemId, port: u32) -> &EmuRead
    requires { IsReadPort results.now chip.place mem.place port }
    ensures { read_port results.now.net chip.place mem.place port ≡ Some result.now }
{
    chip_of(results, chip.place() as u64)
        .memories
        .get(mem.place() as u64)
        .reads
        .get(port as u64)
}

/// What a load gives to a register, if it gives anything.
fn loaded_value(register: EmuRegister, table: &[bool]) -> Option<bool>
    requires { RegisterStands (length table.now) register }
    ensures { result ≡ loaded_value (value_in table.now) register.d register.enable }
{
    match (register.d, register.enable) {
        (None, _) => None,
        (Some(d), None) => Some(value_of(table, d)),
        (Some(d), Some(enable)) => {
            if value_of(table, enable) {
                Some(value_of(table, d))
            } else {
                None
            }
        }
    }
}

/// Puts a value in the place of the one that a net of a chip held.
fn put(held: &mut [List<bool>], chip: ChipId, net: ChipNetId, value: bool)
    requires chip { chip.place < length held.old }
    requires net { net.place < length (get_or held.old chip.place []) }
    ensures { held.new ≡ slice_set held.old chip.place (slice_set (get_or held.old chip.place []) net.place value) }
{
    held[chip.place() as usize].set(net.place() as u64, value);
}
