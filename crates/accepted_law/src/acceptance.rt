//! The laws of acceptance.

ghost use Rattle.emu_machine.specs.Law.{AcceptedAgrees};
ghost use Rattle.accepted_law.specs.Frames.{AcceptedMarksAreTrue};

/// Where the twelve rules hold, the machine agrees with the design, whatever the opening and the events.
pub fn accepted_agrees()
    ensures { AcceptedAgrees }
{}

/// Where the twelve rules hold, the marks at the start of each slot of a frame, and at its end, are true of
/// the machine.
pub fn accepted_marks_are_true()
    ensures { AcceptedMarksAreTrue }
{}
