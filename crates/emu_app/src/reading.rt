//! Reading the texts of a command, in their order; the first that is refused decides.

ghost use Rattle.std.specs.Prelude.{◌≡◌, IfOk, length};
ghost use Rattle.design_core.specs.Dependency.{IsRanked};
ghost use Rattle.case_texts.specs.Forms.{SaysDesign, SaysGroups};
ghost use Rattle.emu_app.specs.Command.{Reads, text_count};
ghost use Rattle.emu_app.specs.Fetching.{AreWithin, texts_of};
ghost use Rattle.emu_app.specs.Reading.{AllMean, EarlierAreRead, OrderSays, PlanSays};
ghost use Rattle.emu_app.specs.Runs.{FitsDesign, RecordingSays};

use crate::command::Command;
use crate::design_text::read_design;
use crate::recording::{Recording, read_event_lines, read_opening_text};
use board_model::Board;
use case_texts::{
    Unread, What, faulty_texts_are_unread, rank_design, read_board_text, read_group_list,
    read_result_texts, read_table, read_tree,
};
use clock_rank::Ranked;
use design_core::Design;
use domain_groups::Groups;
use emu_io::{List, Text};
use emu_machine::Results;
use std::alloc::Global;

/// The board and the results that texts say.
#[derive(Debug, Drop)]
pub struct Planned {
    pub board: Board,
    pub results: Results,
}

/// The bytes of one of the texts of a command.
pub fn text_at(command: Command, texts: &List<Text>, what: What) -> &[u8]
    requires count { length texts.now ≡ text_count command }
    requires reads { Reads command what }
    ensures { result.now ≡ texts_of command texts.now what }
{
    texts.get(command.place_of(what)).bytes()
}

/// The design that the texts say. The cells are read when the design text has its tree, and then the tree
/// is flattened with them.
pub fn read_first(
    alloc: Global,
    command: Command,
    top: &[u8],
    texts: &List<Text>,
) -> Result<Design, Unread>
    requires count { length texts.now ≡ text_count command }
    requires within { AreWithin (texts_of command texts.now) }
    requires design { Reads command What.Design }
    requires cells { Reads command What.Cells }
    ensures { AllMean command top.now (texts_of command texts.now) (SaysDesign top.now (texts_of command texts.now)) result }
{
    let text = text_at(command, texts, What::Design);
    let parsed = read_tree(alloc, text)?;
    let cells = read_table(alloc, text_at(command, texts, What::Cells))?;
    let design = read_design(alloc, top, text, parsed, &cells)?;
    Ok(design)
}

/// The design with its nodes in order, and the groups of its inputs that the texts say.
pub fn read_order<'d>(
    alloc: Global,
    command: Command,
    top: &[u8],
    texts: &List<Text>,
    design: &'d Design,
) -> Result<(Ranked<'d>, Groups), Unread>
    requires count { length texts.now ≡ text_count command }
    requires groups { Reads command What.Groups }
    requires before { SaysDesign top.now (texts_of command texts.now) design.now }
    ensures { AllMean command top.now (texts_of command texts.now) (OrderSays top.now (texts_of command texts.now) design.now) result }
{
    let ranked = rank_design(alloc, design)?;
    let groups = read_group_text(alloc, command, top, texts, design)?;
    Ok((ranked, groups))
}

/// The groups that the texts say, of a design that has an order.
fn read_group_text(
    alloc: Global,
    command: Command,
    top: &[u8],
    texts: &List<Text>,
    design: &Design,
) -> Result<Groups, Unread>
    requires count { length texts.now ≡ text_count command }
    requires groups { Reads command What.Groups }
    requires says { SaysDesign top.now (texts_of command texts.now) design.now }
    requires ranked { IsRanked design.now }
    ensures { AllMean command top.now (texts_of command texts.now) (SaysGroups design.now (texts_of command texts.now What.Groups)) result }
{
    faulty_texts_are_unread();
    let groups = read_group_list(alloc, text_at(command, texts, What::Groups), design)?;
    Ok(groups)
}

/// The board and the results that the texts say, where those before them are read.
pub fn read_plan(
    alloc: Global,
    command: Command,
    top: &[u8],
    texts: &List<Text>,
) -> Result<Planned, Unread>
    requires count { length texts.now ≡ text_count command }
    requires within { AreWithin (texts_of command texts.now) }
    requires board { Reads command What.Board }
    requires netlist { Reads command What.Netlist }
    requires schedule { Reads command What.Schedule }
    requires map { Reads command What.Map }
    requires before { EarlierAreRead command top.now (texts_of command texts.now) What.Board }
    ensures { AllMean command top.now (texts_of command texts.now) (PlanSays (texts_of command texts.now)) result }
{
    faulty_texts_are_unread();
    let _top = top;
    let board = read_board_text(alloc, text_at(command, texts, What::Board))?;
    let results = read_result_texts(
        alloc,
        text_at(command, texts, What::Netlist),
        text_at(command, texts, What::Schedule),
        text_at(command, texts, What::Map),
    )?;
    Ok(Planned { board, results })
}

/// The opening and the events that the texts say, where those before them are read.
pub fn read_recording(
    alloc: Global,
    command: Command,
    top: &[u8],
    texts: &List<Text>,
    design: &Design,
    groups: &Groups,
) -> Result<Recording, Unread>
    requires count { length texts.now ≡ text_count command }
    requires opening { Reads command What.Opening }
    requires events { Reads command What.Events }
    requires design { SaysDesign top.now (texts_of command texts.now) design.now }
    requires groups { SaysGroups design.now (texts_of command texts.now What.Groups) groups.now }
    requires before { EarlierAreRead command top.now (texts_of command texts.now) What.Opening }
    ensures means { AllMean command top.now (texts_of command texts.now) (RecordingSays (texts_of command texts.now) design.now) result }
    ensures fits { IfOk result (FitsDesign design.now) }
{
    faulty_texts_are_unread();
    let opening = read_opening_text(alloc, text_at(command, texts, What::Opening), design)?;
    let events = read_event_lines(alloc, text_at(command, texts, What::Events), design, groups)?;
    Ok(Recording { opening, events })
}
