//! Laws of texts. There is nothing to run.

ghost use Rattle.case_texts.specs.Cases.{TextsTellCasesApart};
ghost use Rattle.case_texts.specs.Reading.{FaultyTextsAreUnread};

use flattening::laws::{each_text_has_one_design, each_tree_has_one_answer};

/// Texts stand for one case at most.
pub fn texts_tell_cases_apart()
    ensures { TextsTellCasesApart }
{
    each_text_has_one_design();
    domain_groups::each_text_has_one_answer();
    board_model::each_text_has_one_answer();
    result_files::results_are_told_apart();
}

/// A text that has a fault is not of its form.
pub fn faulty_texts_are_unread()
    ensures { FaultyTextsAreUnread }
{
    verilog_lex::each_text_has_one_answer();
    verilog_tree::has_one_tree();
    cell_table::each_text_has_one_answer();
    each_text_has_one_design();
    each_tree_has_one_answer();
    clock_rank::cycles_are_unranked();
    domain_groups::each_text_has_one_answer();
    domain_groups::each_opening_has_one_answer();
    domain_groups::each_recording_has_one_answer();
    board_model::each_text_has_one_answer();
    netlist_reader::netlists_are_told_apart();
}
