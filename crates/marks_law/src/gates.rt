//! What gates make of true marks.

ghost use Rattle.marks_law.specs.Gates.{GatesKeepMarks, TablesAreFunctions};

/// A table gate of the origins computes the function that its table was made from.
pub fn tables_are_functions()
    ensures { TablesAreFunctions }
{}

/// Where the marks of what is held are true, those of all nets are.
pub fn gates_keep_marks()
    ensures { GatesKeepMarks }
{}
