//! What the actions of a slot make of true marks.

ghost use Rattle.marks_law.specs.Slots.{SlotKeepsMarks};

/// Every slot whose actions fit keeps true marks true.
pub fn slot_keeps_marks()
    ensures { SlotKeepsMarks }
{}
