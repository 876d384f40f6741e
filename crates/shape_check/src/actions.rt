//! A5, A8 and A10: what each action names.

ghost use Rattle.std.specs.Prelude.{◌≡◌, ◌≤◌, ◌<◌, ◌∷◌, [], length, slice_get, Some};
ghost use Rattle.emu_machine.specs.Acceptance.{FailsA10, FailsA4, FailsA5, FailsA8, case_action_fits, is_inside, keeps_subject, register_subject, same_subjects, send_fits, sends_inside, slot_actions};
ghost use Rattle.emu_machine.specs.Mapped.{subject};
ghost use Rattle.emu_machine.specs.State.{frame_slots};
ghost use Rattle.shape_check.specs.Actions.{AreFew, FailsTest, passes};
ghost use Rattle.shape_check.specs.Influences.{inside_of};
ghost use Rattle.use_check.specs.Least.{IsLeast, IsLeastUnder, Never};

use crate::ShapeCase;
use crate::influences::Influences;
use emu_machine::{Action, Place, Slot, Subject};
use id_arena::{ChipNetId, RegId, Wire};

/// What is asked of each action.
#[derive(Clone, Copy, Drop)]
pub(crate) enum Test<'a> {
    /// All that it names is there and of its kind.
    IsThere,
    /// What it gives a register keeps its subject.
    KeepsSubject,
    /// What it sends is in the influence of its frame.
    SendsInside(&'a Influences<'a>),
}

/// A5: all that an action names is there and of its kind, and what is sent arrives within its frame. The
/// least action is named that does not fit. Takes a step for each action.
pub fn find_a5(case: &ShapeCase) -> Option<Place>
    requires frames { Never (FailsA4 case.now) }
    ensures { IsLeast (FailsA5 case.now) result }
{
    find_action(case, Test::IsThere)
}

/// A8: a `send` goes between nets of one subject, and an `input` into a register of its net. The least
/// action is named that does not. Takes a step for each action.
pub fn find_a8(case: &ShapeCase) -> Option<Place>
    requires frames { Never (FailsA4 case.now) }
    ensures { IsLeast (FailsA8 case.now) result }
{
    find_action(case, Test::KeepsSubject)
}

/// A10: a `send` carries a net of the influence of its frame. The least action is named that does not. Takes a
/// step for each action.
pub(crate) fn find_a10(case: &ShapeCase, influences: &Influences) -> Option<Place>
    requires frames { Never (FailsA4 case.now) }
    ensures { IsLeast (FailsA10 case.now (inside_of influences.now)) result }
{
    find_action(case, Test::SendsInside(influences))
}

/// The least action of all frames that does not pass.
fn find_action(case: &ShapeCase, test: Test<'_>) -> Option<Place>
    requires frames { Never (FailsA4 case.now) }
    ensures { IsLeast (FailsTest case.now test.entry) result }
{
    case.stands();
    let frames = case.frames();
    'each: for k in 0..frames.len() {
        if let Some(at) = find_in_frame(case, test, k as u32, frames[k].slots.as_slice()) {
            return Some(at);
        }
    }
    None
}

/// The same of the slots of one frame.
fn find_in_frame(case: &ShapeCase, test: Test<'_>, frame: u32, slots: &[Slot]) -> Option<Place>
    requires few { AreFew case.now }
    requires slots { slots.now ≡ frame_slots case.now.results frame }
    ensures { IsLeastUnder (FailsTest case.now test.entry) (frame ∷ []) result }
{
    case.stands();
    'each: for t in 0..slots.len() {
        if let Some(at) = find_in_slot(case, test, frame, t as u32, slots[t].actions.as_slice()) {
            return Some(at);
        }
    }
    None
}

/// The same of the actions of one slot.
fn find_in_slot(
    case: &ShapeCase,
    test: Test<'_>,
    frame: u32,
    slot: u32,
    actions: &[Action],
) -> Option<Place>
    requires slot { slot < 65535 }
    requires few { length actions.now ≤ 4294967295 }
    requires actions { actions.now ≡ slot_actions case.now frame slot }
    ensures { IsLeastUnder (FailsTest case.now test.entry) (frame ∷ slot ∷ []) result }
{
    'each: for j in 0..actions.len() {
        if !is_passed(case, test, frame, slot, actions[j]) {
            return Some(Place::Action {
                frame,
                slot,
                action: j as u32,
            });
        }
    }
    None
}

fn is_passed(case: &ShapeCase, test: Test<'_>, frame: u32, slot: u32, action: Action) -> bool
    requires slot { slot < 65535 }
    ensures { result ≡ passes case.now test.entry frame slot action }
{
    match test {
        Test::IsThere => is_there(case, frame, slot, action),
        Test::KeepsSubject => keeps_subject(case, action),
        Test::SendsInside(influences) => sends_inside(case, influences, frame, action),
    }
}

/// Whether all that an action names is there and of its kind.
fn is_there(case: &ShapeCase, frame: u32, slot: u32, action: Action) -> bool
    requires slot { slot < 65535 }
    ensures { result ≡ case_action_fits case.now frame slot action }
{
    match action {
        Action::Input {
            chip,
            register,
            net,
        } => case.is_hold(chip, register) && case.is_input(frame, net),
        Action::Load { chip, register } => case.is_loaded(chip, register),
        Action::Send {
            wire,
            net,
            register,
        } => send_fits(case, frame, slot, net, register, case.wire(wire)),
        Action::Write { chip, mem, port } => case.has_write(chip, mem, port),
        Action::Read { chip, mem, port } => case.has_read(chip, mem, port),
    }
}

/// Whether a `send` over a wire, if that is there, has a net at the near end, a register that holds what it
/// is given at the far end, and arrives within the frame.
fn send_fits(
    case: &ShapeCase,
    frame: u32,
    slot: u32,
    net: ChipNetId,
    register: RegId,
    wire: Option<Wire>,
) -> bool
    requires slot { slot < 65535 }
    ensures { result ≡ send_fits case.now.results.net (length (frame_slots case.now.results frame)) slot net register.place wire }
{
    match wire {
        None => false,
        Some(ends) => {
            net.place < case.chip_nets(ends.from)
                && case.is_hold(ends.to, register)
                && u64::from(slot) + u64::from(ends.latency) <= case.frame_len(frame)
        }
    }
}

/// Whether what an action gives a register keeps its subject.
fn keeps_subject(case: &ShapeCase, action: Action) -> bool
    ensures { result ≡ keeps_subject case.now action }
{
    match action {
        Action::Input {
            chip,
            register,
            net,
        } => same_subjects(
            case.register_subject(chip, register),
            Some(Subject::Net(net)),
        ),
        Action::Send {
            wire,
            net,
            register,
        } => match case.wire(wire) {
            None => false,
            Some(ends) => same_subjects(
                case.subject(ends.from, net),
                case.register_subject(ends.to, register),
            ),
        },
        _ => true,
    }
}

/// Whether what an action sends, if it sends, is in the influence of its frame.
fn sends_inside(case: &ShapeCase, influences: &Influences, frame: u32, action: Action) -> bool
    ensures { result ≡ sends_inside case.now (inside_of influences.now frame) action }
{
    match action {
        Action::Send { wire, net, .. } => match case.wire(wire) {
            None => false,
            Some(ends) => is_inside(influences, frame, case.subject(ends.from, net)),
        },
        _ => true,
    }
}

/// Whether a subject is a net of the influence of a frame.
fn is_inside(influences: &Influences, frame: u32, what: Option<Subject>) -> bool
    ensures { result ≡ is_inside (inside_of influences.now frame) what }
{
    match what {
        Some(Subject::Net(net)) => influences.has_net(frame, net),
        _ => false,
    }
}

/// Whether two subjects are there and the same.
pub(crate) fn same_subjects(a: Option<Subject>, b: Option<Subject>) -> bool
    ensures { result ≡ same_subjects a b }
{
    match (a, b) {
        (Some(a), Some(b)) => a == b,
        _ => false,
    }
}
