//! The laws of flattening.

ghost use Rattle.flattening.specs.Examples.{ExamplesHold};
ghost use Rattle.flattening.specs.WholeExamples.{WholeExamplesHold};
ghost use Rattle.flattening.specs.Laws.{DeclarationsAreTold, EachTextHasOneDesign, EachTreeHasOneAnswer, FlattenedPartsAreWhole};

/// What is given by a text and a table of cells has one answer, want of memory aside.
pub fn each_tree_has_one_answer()
    ensures { EachTreeHasOneAnswer }
{}

/// Design bytes, cell bytes and the name of a top stand for at most one design.
pub fn each_text_has_one_design()
    ensures { EachTextHasOneDesign }
{
    verilog_lex::each_text_has_one_answer();
    verilog_tree::has_one_tree();
    cell_table::each_text_has_one_answer();
}

/// What `read_nets` answers of a module is what flattening asks of its declarations: the same nets, or
/// the same first fault.
pub fn declarations_are_told()
    ensures { DeclarationsAreTold }
{}

/// What is flattened out of a text may be given to `Design::build`, which refuses it for its drivers alone.
pub fn flattened_parts_are_whole()
    ensures { FlattenedPartsAreWhole }
{}

/// Worked examples of ranges, primitives and cells.
pub fn examples_hold()
    ensures { ExamplesHold }
{}

/// Whole texts, flattened.
pub fn whole_examples_hold()
    ensures { WholeExamplesHold }
{}
