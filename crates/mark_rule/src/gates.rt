//! The marks that a gate has for those of its inputs.
ghost use Rattle.std.specs.Prelude.{◌≡◌, ◌<◌, All, length, slice_get};
ghost use Rattle.design_core.specs.Design.{driver};
ghost use Rattle.emu_machine.specs.Acceptance.{plain_driver_mark, plain_gate_mark};
ghost use Rattle.emu_machine.specs.Marks.{copied_mark, driver_mark, edge_mark, element_mark, gate_mark, latch_mark, next_mark, read_take_mark, write_take_mark};
ghost use Rattle.mark_rule.specs.Gates.{IsThere, is_constant, mark_on, marks_on};

use crate::NetMarks;
use crate::subjects::{driver_of, element_of};
use design_core::{Design, Driver, Element};
use emu_machine::Subject;
use id_arena::{ChipNetId, ElemId, NetId};

/// The marks of a gate whose output has this subject.
pub(crate) fn gate_mark(
    design: &Design,
    what: Option<Subject>,
    inputs: &[ChipNetId],
    marks: &[NetMarks],
) -> NetMarks
    requires { All (IsThere (length marks.now)) inputs.now }
    ensures { result ≡ gate_mark design.now what (marks_on marks.now inputs.now) }
{
    match what {
        Some(Subject::Net(net)) => driver_mark(design, driver_of(design, net), inputs, marks),
        Some(Subject::Up(_) | Subject::Down(_)) => edge_mark(inputs, marks),
        Some(Subject::Take(_)) => NetMarks::after_if(copied_mark(inputs, marks).after),
        Some(Subject::Next(_)) => next_mark(inputs, marks),
        Some(Subject::TakeWrite(..)) => write_take_mark(inputs, marks),
        Some(Subject::TakeRead(..)) => read_take_mark(inputs, marks),
        Some(Subject::Old(..)) | None => NetMarks::none(),
    }
}

/// The marks of a gate that A12 goes by: those of a constant are "before" alone.
pub(crate) fn plain_mark(
    design: &Design,
    what: Option<Subject>,
    inputs: &[ChipNetId],
    marks: &[NetMarks],
) -> NetMarks
    requires { All (IsThere (length marks.now)) inputs.now }
    ensures { result ≡ plain_gate_mark design.now what (marks_on marks.now inputs.now) }
{
    match what {
        Some(Subject::Net(net)) if is_constant(design, net) => NetMarks::only_before(),
        _ => gate_mark(design, what, inputs, marks),
    }
}

/// Whether a net of the design is a constant, as one is that is not there.
fn is_constant(design: &Design, net: NetId) -> bool
    ensures { result ≡ is_constant (driver design.now net.place) }
{
    match driver_of(design, net) {
        Driver::Constant(_) => true,
        Driver::Input | Driver::Elem(_) | Driver::Read(..) => false,
    }
}

/// The marks of a gate for a net of the design that is driven so.
fn driver_mark(
    design: &Design,
    driver: Driver,
    inputs: &[ChipNetId],
    marks: &[NetMarks],
) -> NetMarks
    requires { All (IsThere (length marks.now)) inputs.now }
    ensures { result ≡ driver_mark design.now driver (marks_on marks.now inputs.now) }
{
    match driver {
        Driver::Constant(_) => NetMarks::both(),
        Driver::Elem(elem) => element_mark(design, elem, inputs, marks),
        Driver::Input | Driver::Read(..) => NetMarks::none(),
    }
}

/// The marks of a gate for the output of an element.
fn element_mark(design: &Design, elem: ElemId, inputs: &[ChipNetId], marks: &[NetMarks]) -> NetMarks
    requires { All (IsThere (length marks.now)) inputs.now }
    ensures { result ≡ element_mark (slice_get design.now.elements elem.place) (marks_on marks.now inputs.now) }
{
    match element_of(design, elem) {
        Some(Element::Gate { .. }) => copied_mark(inputs, marks),
        Some(Element::Latch(_)) => latch_mark(inputs, marks),
        Some(Element::Flop(_) | Element::Memory(_)) | None => NetMarks::none(),
    }
}

/// The marks that all inputs have.
fn copied_mark(inputs: &[ChipNetId], marks: &[NetMarks]) -> NetMarks
    requires { All (IsThere (length marks.now)) inputs.now }
    ensures { result ≡ copied_mark (marks_on marks.now inputs.now) }
{
    let mut before = true;
    let mut after = true;
    'inputs: for input in inputs {
        let mark = mark_of(marks, *input);
        before = before && mark.before;
        after = after && mark.after;
    }
    NetMarks { before, after }
}

/// The marks of a latch gate: its gate, its data, its hold, then its resets.
fn latch_mark(inputs: &[ChipNetId], marks: &[NetMarks]) -> NetMarks
    requires { All (IsThere (length marks.now)) inputs.now }
    ensures { result ≡ latch_mark (marks_on marks.now inputs.now) }
{
    let [gate, feed, hold, resets @ ..] = inputs else {
        return NetMarks::none();
    };
    let (gate, feed, hold) = (
        mark_of(marks, *gate),
        mark_of(marks, *feed),
        mark_of(marks, *hold),
    );
    let resets = copied_mark(resets, marks);
    NetMarks {
        before: gate.before && feed.before && hold.before && resets.before,
        after: gate.after && feed.after && resets.after && hold.has_some(),
    }
}

/// The marks of an edge gate: its clock as it was before, then as it is after.
fn edge_mark(inputs: &[ChipNetId], marks: &[NetMarks]) -> NetMarks
    requires { All (IsThere (length marks.now)) inputs.now }
    ensures { result ≡ edge_mark (marks_on marks.now inputs.now) }
{
    match inputs {
        [before, after] => {
            let (before, after) = (mark_of(marks, *before), mark_of(marks, *after));
            NetMarks::after_if(before.before && after.after)
        }
        _ => NetMarks::none(),
    }
}

/// The marks of a next gate: its data, then its resets.
fn next_mark(inputs: &[ChipNetId], marks: &[NetMarks]) -> NetMarks
    requires { All (IsThere (length marks.now)) inputs.now }
    ensures { result ≡ next_mark (marks_on marks.now inputs.now) }
{
    match inputs {
        [feed, resets @ ..] => {
            let resets = copied_mark(resets, marks);
            NetMarks::after_if(mark_of(marks, *feed).before && resets.after)
        }
        _ => NetMarks::none(),
    }
}

/// The marks of a write take gate: its edge, then its enable.
fn write_take_mark(inputs: &[ChipNetId], marks: &[NetMarks]) -> NetMarks
    requires { All (IsThere (length marks.now)) inputs.now }
    ensures { result ≡ write_take_mark (marks_on marks.now inputs.now) }
{
    match inputs {
        [edge, enable] => {
            let (edge, enable) = (mark_of(marks, *edge), mark_of(marks, *enable));
            NetMarks::after_if(edge.after && enable.before)
        }
        _ => NetMarks::none(),
    }
}

/// The marks of a read take gate: its edge.
fn read_take_mark(inputs: &[ChipNetId], marks: &[NetMarks]) -> NetMarks
    requires { All (IsThere (length marks.now)) inputs.now }
    ensures { result ≡ read_take_mark (marks_on marks.now inputs.now) }
{
    match inputs {
        [edge] => NetMarks::after_if(mark_of(marks, *edge).after),
        _ => NetMarks::none(),
    }
}

/// The marks of a net.
fn mark_of(marks: &[NetMarks], net: ChipNetId) -> NetMarks
    requires { IsThere (length marks.now) net }
    ensures { result ≡ mark_on marks.now net }
{
    marks[net.place as usize]
}
