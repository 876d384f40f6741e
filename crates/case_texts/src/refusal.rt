//! Why a text is refused.

use design_core::LimitKind;
use emu_io::{List, NoMemory, Text};
use id_arena::{ChipId, ChipNetId, NetId, WireId};

/// What can be wrong with a design text that has no tree.
#[derive(Clone, Copy, Debug, Drop, PartialEq, Eq)]
pub enum TextFault {
    /// A byte begins no token.
    BadByte,
    /// A comment has no end.
    OpenComment,
    /// An attribute has no end.
    OpenAttribute,
    /// A number is of none of the forms of numbers.
    BadNumber,
    /// A constant holds a digit `x`, `z` or `?`.
    UnknownDigit,
    /// A directive is unknown.
    Directive,
    /// A token stands where the grammar has none.
    Expected,
    /// That token is a reserved word that the grammar does not use.
    Unsupported,
    /// A brace is the 65th that is open.
    TooDeep,
}

/// A fault of the design text, with its place in bytes.
#[derive(Clone, Copy, Debug, Drop, PartialEq, Eq)]
pub struct Fault {
    pub kind: TextFault,
    pub at: u64,
}

/// What can be wrong with a table of cells; `cell` is a cell's place in it, from 0.
#[derive(Clone, Copy, Debug, Drop, PartialEq, Eq)]
pub enum CellsFault {
    /// The text is no JSON.
    NotJson,
    /// The version is neither 1 nor 2.
    Version,
    /// The table (None) or a cell is not of the form.
    BadShape { cell: Option<u32> },
    /// A cell names a pin twice.
    PinTwice { cell: u32 },
    /// The length of a table does not fit its inputs.
    TableSize { cell: u32 },
    /// A cell is beyond a limit.
    Limit { cell: u32 },
    /// An earlier cell has the name.
    CellTwice { cell: u32 },
}

/// What can be wrong with a design whose text has a tree; `at` is a byte of the text.
#[derive(Debug, Drop)]
pub enum DesignsFault {
    /// No module has the name of the top.
    NoTop,
    /// A second thing has the name of another.
    NameTwice { at: u32 },
    /// No module and no cell has the name.
    UnknownModule { at: u32 },
    /// An instance of a module stands within an instance of it.
    Recursive { at: u32 },
    /// There are not as many connections as ports or pins.
    PortCount { at: u32 },
    /// No port or pin has the name.
    NoPort { at: u32 },
    /// A port or pin is connected twice.
    PortTwice { at: u32 },
    /// An expression has not as many bits as it must.
    WidthDiffers { at: u32 },
    /// A select is none of its net's.
    BadIndex { at: u32 },
    /// A name is no net, a port has no direction, or a direction is of no port.
    NotDeclared { at: u32 },
    /// A quantity is beyond its limit.
    Limit { which: LimitKind, at: u32 },
    /// More than one thing drives a net; the net of least number, with its name.
    TwoDrivers { net: NetId, name: Text },
    /// A net is read, and nothing drives it; the net of least number, with its name.
    Undriven { net: NetId, name: Text },
}

/// What can be wrong with groups; `group` is a group's place among them, from 0.
#[derive(Clone, Copy, Debug, Drop, PartialEq, Eq)]
pub enum GroupsFault {
    /// The text is no JSON.
    NotJson,
    /// It is not of the form.
    BadShape,
    /// There are more than 32 groups.
    Limit,
    /// An earlier group has the name.
    NameTaken { group: u32 },
    /// The group has no port.
    EmptyGroup { group: u32 },
    /// A port of the group is no input port of the design.
    NoPort { group: u32 },
    /// A port of the group stands at an earlier place.
    PortTwice { group: u32 },
}

/// What can be wrong with a board.
#[derive(Clone, Copy, Debug, Drop, PartialEq, Eq)]
pub enum BoardsFault {
    /// The text is no JSON.
    NotJson,
    /// It is not of the form.
    BadShape,
    /// The version is neither 1 nor 2.
    Version,
    /// A number is outside its limits.
    Limit,
    /// This wire is the first that does not join two chips.
    BadWire { wire: WireId },
}

/// What can be wrong with a netlist; `at` is a byte of the text.
#[derive(Clone, Copy, Debug, Drop, PartialEq, Eq)]
pub enum NetlistsFault {
    /// A byte begins no token.
    BadByte { at: u64 },
    /// A comment has no end.
    OpenComment { at: u64 },
    /// An attribute has no end.
    OpenAttribute { at: u64 },
    /// A number is of none of the forms of numbers.
    BadNumber { at: u64 },
    /// A constant holds a digit `x`, `z` or `?`.
    UnknownDigit { at: u64 },
    /// A directive is unknown.
    Directive { at: u64 },
    /// The token that begins here cannot stand after those before it.
    Form { at: u64 },
    /// This is the least net that does not have exactly one driver.
    Shape { chip: ChipId, net: ChipNetId },
}

/// What can be wrong with a schedule.
#[derive(Clone, Copy, Debug, Drop, PartialEq, Eq)]
pub enum SchedulesFault {
    /// The text is no JSON.
    NotJson,
    /// The version is not 1.
    Version,
    /// This action is the first that is not of the form; where a slot, a frame or the whole is not, the
    /// numbers below it are 0.
    Form { frame: u32, slot: u32, action: u32 },
}

/// What can be wrong with a map.
#[derive(Clone, Copy, Debug, Drop, PartialEq, Eq)]
pub enum MapsFault {
    /// The text is no JSON.
    NotJson,
    /// The version is neither 1 nor 2.
    Version,
    /// This chip's entry is the first that is not of the form, or does not fit the netlist; the number of
    /// chips stands for the rest.
    Form { entry: u32 },
}

/// What can be wrong with an opening.
#[derive(Debug, Drop)]
pub enum OpeningsFault {
    /// The text is no JSON.
    NotJson,
    /// It is not of the form.
    BadShape,
    /// No input port has this name.
    NoPort { name: Text },
    /// The value for this port, or for a word of the memory of this path, is none or does not fit.
    BadValue { name: Text },
    /// No flip-flop and no latch has this path.
    NoState { path: Text },
    /// No memory has this path, or that memory has no such address.
    NoWord { path: Text },
}

/// What can be wrong with events; `line` is the number of the line, from 1.
#[derive(Clone, Copy, Debug, Drop, PartialEq, Eq)]
pub enum EventsFault {
    /// The line has a byte that none may have, or a word behind the first without `=`.
    BadLine { line: u64 },
    /// Its first word names no group.
    NoGroup { line: u64 },
    /// A word names no input port of the group.
    NoPort { line: u64 },
    /// A word names a port that a word before it names.
    PortTwice { line: u64 },
    /// The value for a port is none or does not fit.
    BadValue { line: u64 },
}

/// Why a text is refused.
#[derive(Debug, Drop)]
pub enum Refusal {
    /// The design text has this fault.
    Faulty(Fault),
    /// The table of cells has this fault.
    Cells(CellsFault),
    /// The design text has a tree, and this fault with the table of cells.
    Design(DesignsFault),
    /// The design's nodes go in a cycle, whose names these are.
    Cycle(List<Text>),
    /// The groups have this fault.
    Groups(GroupsFault),
    /// The board has this fault.
    Board(BoardsFault),
    /// The netlist has this fault.
    Netlist(NetlistsFault),
    /// The schedule has this fault.
    Schedule(SchedulesFault),
    /// The map has this fault with the netlist.
    Map(MapsFault),
    /// The opening has this fault.
    Opening(OpeningsFault),
    /// The events have this fault.
    Events(EventsFault),
}

/// Why texts were not read.
#[derive(Debug, Drop)]
pub enum Unread {
    /// A text is refused.
    Refused(Refusal),
    /// No memory was left.
    NoMemory,
}

impl From<NoMemory> for Unread {
    ghost use Rattle.std.specs.Prelude.{◌≡◌};
    ghost use Rattle.case_texts.specs.declared.refusal.Unread.TheVariants as unread;

    ghost from_gives = { λ _ e. e ≡ unread.NoMemory };

    fn from(_: NoMemory) -> Unread {
        Unread::NoMemory
    }
}
