//! A7 of a gate: it is what the subject of its output says.

ghost use Rattle.std.specs.Prelude.{◌≡◌, ◌∷◌, [], Option, Some, length, map};
ghost use Rattle.design_core.specs.declared.operation.Op.TheVariants.{Table};
ghost use Rattle.emu_machine.specs.declared.map.Subject.TheVariants.{Net};
ghost use Rattle.emu_machine.specs.Origins.{constant_origin, edge_of, gate_fits, has_origin, have_subjects, latch_origin, net_origin, next_origin, origin_of, read_take_origin, reset_subjects, same_op, take_origin, write_take_origin};
ghost use Rattle.shape_check.specs.Tables.{edge_origin};

use crate::ShapeCase;
use crate::tables::{latch_table, next_table, take_table, write_take_table};
use design_core::{Driver, Edge, Element, Flop, Latch, Level, Op, WritePort};
use emu_machine::{EmuGate, Subject};
use id_arena::{ChipId, ChipNetId, NetId};

/// The table of a gate that shows the rise or the fall of a net: the value before, then the value after.
const RISE: u64 = 4;

const FALL: u64 = 2;

/// The table of a gate that shows its input.
const COPY: u64 = 2;

/// Whether a gate is what the subject of its output says.
pub(crate) fn gate_fits(case: &ShapeCase, chip: ChipId, gate: &EmuGate) -> bool
    ensures { result ≡ gate_fits case.now.design case.now.results chip.place gate.now }
{
    match case.subject(chip, gate.output) {
        Some(what) => has_origin(case, chip, gate, what),
        None => false,
    }
}

/// Whether a gate is what this subject says.
fn has_origin(case: &ShapeCase, chip: ChipId, gate: &EmuGate, what: Subject) -> bool
    ensures { result ≡ has_origin case.now.results chip.place gate.now (origin_of case.now.design what) }
{
    match what {
        Subject::Net(net) => case.has_net(net) && net_fits(case, chip, gate, case.driver(net)),
        Subject::Up(net) => case.has_net(net) && edge_fits(case, chip, gate, RISE, net),
        Subject::Down(net) => case.has_net(net) && edge_fits(case, chip, gate, FALL, net),
        Subject::Take(element) => match case.flop(element) {
            Some(flop) => take_fits(case, chip, gate, flop),
            None => false,
        },
        Subject::Next(element) => match case.flop(element) {
            Some(flop) => next_fits(case, chip, gate, flop),
            None => false,
        },
        Subject::TakeWrite(mem, port) => match case.write(mem, port) {
            Some(port) => write_take_fits(case, chip, gate, port),
            None => false,
        },
        Subject::Old(_, _, _) => false,
        Subject::TakeRead(mem, port) => match case.read(mem, port) {
            Some(port) => read_take_fits(case, chip, gate, port.clock),
            None => false,
        },
    }
}

/// Whether a gate is what the net of the design says that this drives.
fn net_fits(case: &ShapeCase, chip: ChipId, gate: &EmuGate, driver: Driver) -> bool
    ensures { result ≡ has_origin case.now.results chip.place gate.now (net_origin case.now.design driver) }
{
    match driver {
        Driver::Constant(value) => {
            is_table(gate.op, u64::from(value)) && are(case, chip, gate.inputs.as_slice(), &[])
        },
        Driver::Elem(element) => match case.element(element) {
            Some(Element::Gate { op, inputs, .. }) => {
                gate.op == *op && are_nets(case, chip, gate.inputs.as_slice(), inputs.as_slice())
            }
            Some(Element::Latch(latch)) => latch_fits(case, chip, gate, *latch),
            _ => false,
        },
        _ => false,
    }
}

/// Whether a gate has this table.
fn is_table(op: Op, table: u64) -> bool
    ensures { result ≡ same_op op (Table table) }
{
    op == Op::Table(table)
}

/// Whether a gate has this table over a net from before and after an event.
fn edge_fits(case: &ShapeCase, chip: ChipId, gate: &EmuGate, table: u64, net: NetId) -> bool
    ensures { result ≡ has_origin case.now.results chip.place gate.now (Some (edge_origin table net)) }
{
    let inputs = [Subject::Net(net), Subject::Net(net)];
    is_table(gate.op, table) && are(case, chip, gate.inputs.as_slice(), &inputs)
}

/// Whether a gate is the take gate of a flip-flop.
fn take_fits(case: &ShapeCase, chip: ChipId, gate: &EmuGate, flop: Flop) -> bool
    ensures { result ≡ has_origin case.now.results chip.place gate.now (Some (take_origin flop)) }
{
    is_table(gate.op, take_table(flop))
        && shows(
            case,
            chip,
            gate.inputs.as_slice(),
            edge_of(flop.clock, flop.rise),
            flop.clear,
            flop.preset,
        )
}

/// Whether a gate is the next gate of a flip-flop.
fn next_fits(case: &ShapeCase, chip: ChipId, gate: &EmuGate, flop: Flop) -> bool
    ensures { result ≡ has_origin case.now.results chip.place gate.now (Some (next_origin flop)) }
{
    is_table(gate.op, next_table(flop))
        && shows(
            case,
            chip,
            gate.inputs.as_slice(),
            Subject::Net(flop.feed),
            flop.clear,
            flop.preset,
        )
}

/// Whether a gate is the gate of a latch.
fn latch_fits(case: &ShapeCase, chip: ChipId, gate: &EmuGate, latch: Latch) -> bool
    ensures { result ≡ has_origin case.now.results chip.place gate.now (Some (latch_origin latch)) }
{
    is_table(gate.op, latch_table(latch)) && shows_latch(case, chip, gate.inputs.as_slice(), latch)
}

/// Whether nets of a chip stand for the gate of a latch, its data, its output, and its resets.
fn shows_latch(case: &ShapeCase, chip: ChipId, nets: &[ChipNetId], latch: Latch) -> bool
    ensures { result ≡ have_subjects case.now.results chip.place nets.now (latch_origin latch).inputs }
{
    match nets {
        [open, rest @ ..] => {
            case.has_subject(chip, *open, Subject::Net(latch.gate.net))
                && shows_data(case, chip, rest, latch)
        }
        [] => false,
    }
}

/// Whether nets of a chip stand for the data of a latch, its output, and its resets.
fn shows_data(case: &ShapeCase, chip: ChipId, nets: &[ChipNetId], latch: Latch) -> bool
    ensures { result ≡ have_subjects case.now.results chip.place nets.now (Net latch.feed ∷ Net latch.q ∷ reset_subjects latch.clear latch.preset) }
{
    match nets {
        [feed, rest @ ..] => {
            let hold = Subject::Net(latch.q);
            case.has_subject(chip, *feed, Subject::Net(latch.feed))
                && shows(case, chip, rest, hold, latch.clear, latch.preset)
        }
        [] => false,
    }
}

/// Whether a gate is the take gate of a write port.
fn write_take_fits(case: &ShapeCase, chip: ChipId, gate: &EmuGate, port: &WritePort) -> bool
    ensures { result ≡ has_origin case.now.results chip.place gate.now (Some (write_take_origin port.now)) }
{
    let inputs = [
        edge_of(port.clock, port.rise),
        Subject::Net(port.enable.net),
    ];
    is_table(gate.op, write_take_table(port)) && are(case, chip, gate.inputs.as_slice(), &inputs)
}

/// Whether a gate is the take gate of a read port that has a clock.
fn read_take_fits(case: &ShapeCase, chip: ChipId, gate: &EmuGate, clock: Option<Edge>) -> bool
    ensures { result ≡ has_origin case.now.results chip.place gate.now (read_take_origin clock) }
{
    let Some(clock) = clock else {
        return false;
    };
    let inputs = [edge_of(clock.net, clock.rise)];
    is_table(gate.op, COPY) && are(case, chip, gate.inputs.as_slice(), &inputs)
}

/// The edge of a clock as a subject.
fn edge_of(clock: NetId, rise: bool) -> Subject
    ensures { result ≡ edge_of clock rise }
{
    if rise {
        Subject::Up(clock)
    } else {
        Subject::Down(clock)
    }
}

/// Whether the first of some nets of a chip has a subject, and the others are those of the resets.
fn shows(
    case: &ShapeCase,
    chip: ChipId,
    nets: &[ChipNetId],
    first: Subject,
    clear: Option<Level>,
    preset: Option<Level>,
) -> bool
    ensures { result ≡ have_subjects case.now.results chip.place nets.now (first ∷ reset_subjects clear preset) }
{
    match nets {
        [net, rest @ ..] => {
            case.has_subject(chip, *net, first) && are_resets(case, chip, rest, clear, preset)
        }
        [] => false,
    }
}

/// Whether nets of a chip have the nets of resets as their subjects, a clear before a preset.
fn are_resets(
    case: &ShapeCase,
    chip: ChipId,
    nets: &[ChipNetId],
    clear: Option<Level>,
    preset: Option<Level>,
) -> bool
    ensures { result ≡ have_subjects case.now.results chip.place nets.now (reset_subjects clear preset) }
{
    match (clear, preset) {
        (None, None) => are(case, chip, nets, &[]),
        (Some(level), None) | (None, Some(level)) => {
            are(case, chip, nets, &[Subject::Net(level.net)])
        }
        (Some(clear), Some(preset)) => {
            let resets = [Subject::Net(clear.net), Subject::Net(preset.net)];
            are(case, chip, nets, &resets)
        }
    }
}

/// Whether nets of a chip have these subjects, one by one and none more.
fn are(case: &ShapeCase, chip: ChipId, nets: &[ChipNetId], subjects: &[Subject]) -> bool
    ensures { result ≡ have_subjects case.now.results chip.place nets.now subjects.now }
{
    if nets.len() != subjects.len() {
        return false;
    }
    'each: for i in 0..nets.len() {
        if !case.has_subject(chip, nets[i], subjects[i]) {
            return false;
        }
    }
    true
}

/// Whether nets of a chip stand for these nets of the design, one by one and none more.
pub(crate) fn are_nets(case: &ShapeCase, chip: ChipId, nets: &[ChipNetId], of: &[NetId]) -> bool
    ensures { result ≡ have_subjects case.now.results chip.place nets.now (map Net of.now) }
{
    if nets.len() != of.len() {
        return false;
    }
    'each: for i in 0..nets.len() {
        if !case.has_subject(chip, nets[i], Subject::Net(of[i])) {
            return false;
        }
    }
    true
}
