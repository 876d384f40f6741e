//! What is printed of a refusal.

ghost use Rattle.std.specs.Prelude.{◌++◌, ◌≡◌, IfOk, codes, decimal};
ghost use Rattle.case_texts.specs.Words.{board_words, cells_words, cycle_text, design_words, events_words, fault_name, fault_text_of, groups_words, limit_name, line, map_words, netlist_words, opening_words, refusal_text, schedule_words};

use crate::lines::{append, append_decimal, line, numbered};
use crate::refusal::{
    BoardsFault, CellsFault, DesignsFault, EventsFault, Fault, GroupsFault, MapsFault,
    NetlistsFault, OpeningsFault, Refusal, SchedulesFault, TextFault,
};
use design_core::LimitKind;
use emu_io::{NoMemory, Text};
use id_arena::Key;
use std::alloc::Global;

/// The line of a refusal.
pub fn refusal_text(alloc: Global, why: &Refusal) -> Result<Vec<u8>, NoMemory>
    ensures { IfOk result (λ text. text.items ≡ refusal_text why.now) }
{
    match why {
        Refusal::Faulty(fault) => fault_text(alloc, fault),
        Refusal::Cells(fault) => cells_text(alloc, *fault),
        Refusal::Design(fault) => design_text(alloc, fault),
        Refusal::Cycle(names) => cycle_text(alloc, names.as_slice()),
        Refusal::Groups(fault) => groups_text(alloc, *fault),
        Refusal::Board(fault) => board_text(alloc, *fault),
        Refusal::Netlist(fault) => netlist_text(alloc, *fault),
        Refusal::Schedule(fault) => schedule_text(alloc, *fault),
        Refusal::Map(fault) => map_text(alloc, *fault),
        Refusal::Opening(fault) => opening_text(alloc, fault),
        Refusal::Events(fault) => events_text(alloc, *fault),
    }
}

/// The line that names a fault of cells.
fn cells_text(alloc: Global, fault: CellsFault) -> Result<Vec<u8>, NoMemory>
    ensures { IfOk result (λ text. text.items ≡ line (codes "refused cells " ++ cells_words fault)) }
{
    let refused = b"refused cells ".as_slice();
    match fault {
        CellsFault::NotJson => line(alloc, refused, b"NotJson", b""),
        CellsFault::Version => line(alloc, refused, b"Version", b""),
        CellsFault::BadShape { cell: None } => line(alloc, refused, b"BadShape", b""),
        CellsFault::BadShape { cell: Some(cell) } => {
            numbered(alloc, refused, b"BadShape ", u64::from(cell))
        }
        CellsFault::PinTwice { cell } => numbered(alloc, refused, b"PinTwice ", u64::from(cell)),
        CellsFault::TableSize { cell } => numbered(alloc, refused, b"TableSize ", u64::from(cell)),
        CellsFault::Limit { cell } => numbered(alloc, refused, b"Limit ", u64::from(cell)),
        CellsFault::CellTwice { cell } => numbered(alloc, refused, b"CellTwice ", u64::from(cell)),
    }
}

/// The printed name of a quantity that has a limit.
fn limit_name(which: LimitKind) -> &'static [u8]
    ensures { result.now ≡ limit_name which }
{
    match which {
        LimitKind::Nets => b"nets ",
        LimitKind::Elements => b"elements ",
        LimitKind::Inputs => b"inputs ",
        LimitKind::Width => b"width ",
        LimitKind::Depth => b"depth ",
        LimitKind::Instances => b"instances ",
        LimitKind::Words => b"words ",
    }
}

/// The line that names a fault of a design.
fn design_text(alloc: Global, fault: &DesignsFault) -> Result<Vec<u8>, NoMemory>
    ensures { IfOk result (λ text. text.items ≡ line (codes "refused design " ++ design_words fault.now)) }
{
    let refused = b"refused design ".as_slice();
    match fault {
        DesignsFault::NoTop => line(alloc, refused, b"NoTop", b""),
        DesignsFault::NameTwice { at } => numbered(alloc, refused, b"NameTwice ", u64::from(*at)),
        DesignsFault::UnknownModule { at } => {
            numbered(alloc, refused, b"UnknownModule ", u64::from(*at))
        }
        DesignsFault::Recursive { at } => numbered(alloc, refused, b"Recursive ", u64::from(*at)),
        DesignsFault::PortCount { at } => numbered(alloc, refused, b"PortCount ", u64::from(*at)),
        DesignsFault::NoPort { at } => numbered(alloc, refused, b"NoPort ", u64::from(*at)),
        DesignsFault::PortTwice { at } => numbered(alloc, refused, b"PortTwice ", u64::from(*at)),
        DesignsFault::WidthDiffers { at } => {
            numbered(alloc, refused, b"WidthDiffers ", u64::from(*at))
        }
        DesignsFault::BadIndex { at } => numbered(alloc, refused, b"BadIndex ", u64::from(*at)),
        DesignsFault::NotDeclared { at } => {
            numbered(alloc, refused, b"NotDeclared ", u64::from(*at))
        }
        DesignsFault::Limit { which, at } => numbered(
            alloc,
            b"refused design Limit ",
            limit_name(*which),
            u64::from(*at),
        ),
        DesignsFault::TwoDrivers { name, .. } => line(alloc, refused, b"TwoDrivers ", name.bytes()),
        DesignsFault::Undriven { name, .. } => line(alloc, refused, b"Undriven ", name.bytes()),
    }
}

/// The line that names a fault of groups.
fn groups_text(alloc: Global, fault: GroupsFault) -> Result<Vec<u8>, NoMemory>
    ensures { IfOk result (λ text. text.items ≡ line (codes "refused groups " ++ groups_words fault)) }
{
    let refused = b"refused groups ".as_slice();
    match fault {
        GroupsFault::NotJson => line(alloc, refused, b"NotJson", b""),
        GroupsFault::BadShape => line(alloc, refused, b"BadShape", b""),
        GroupsFault::Limit => line(alloc, refused, b"Limit", b""),
        GroupsFault::NameTaken { group } => {
            numbered(alloc, refused, b"NameTaken ", u64::from(group))
        }
        GroupsFault::EmptyGroup { group } => {
            numbered(alloc, refused, b"EmptyGroup ", u64::from(group))
        }
        GroupsFault::NoPort { group } => numbered(alloc, refused, b"NoPort ", u64::from(group)),
        GroupsFault::PortTwice { group } => {
            numbered(alloc, refused, b"PortTwice ", u64::from(group))
        }
    }
}

/// The line that names a fault of a board.
fn board_text(alloc: Global, fault: BoardsFault) -> Result<Vec<u8>, NoMemory>
    ensures { IfOk result (λ text. text.items ≡ line (codes "refused board " ++ board_words fault)) }
{
    let refused = b"refused board ".as_slice();
    match fault {
        BoardsFault::NotJson => line(alloc, refused, b"NotJson", b""),
        BoardsFault::BadShape => line(alloc, refused, b"BadShape", b""),
        BoardsFault::Version => line(alloc, refused, b"Version", b""),
        BoardsFault::Limit => line(alloc, refused, b"Limit", b""),
        BoardsFault::BadWire { wire } => {
            numbered(alloc, refused, b"BadWire ", u64::from(wire.place()))
        }
    }
}

/// The line that names a fault of a netlist.
fn netlist_text(alloc: Global, fault: NetlistsFault) -> Result<Vec<u8>, NoMemory>
    ensures { IfOk result (λ text. text.items ≡ line (codes "refused netlist " ++ netlist_words fault)) }
{
    let refused = b"refused netlist ".as_slice();
    match fault {
        NetlistsFault::BadByte { at } => numbered(alloc, refused, b"BadByte ", at),
        NetlistsFault::OpenComment { at } => numbered(alloc, refused, b"OpenComment ", at),
        NetlistsFault::OpenAttribute { at } => numbered(alloc, refused, b"OpenAttribute ", at),
        NetlistsFault::BadNumber { at } => numbered(alloc, refused, b"BadNumber ", at),
        NetlistsFault::UnknownDigit { at } => numbered(alloc, refused, b"UnknownDigit ", at),
        NetlistsFault::Directive { at } => numbered(alloc, refused, b"Directive ", at),
        NetlistsFault::Form { at } => numbered(alloc, refused, b"NetlistForm ", at),
        NetlistsFault::Shape { chip, net } => {
            shape_text(alloc, u64::from(chip.place()), u64::from(net.place()))
        }
    }
}

/// The line that names a net of a chip without exactly one driver.
fn shape_text(alloc: Global, chip: u64, net: u64) -> Result<Vec<u8>, NoMemory>
    ensures { IfOk result (λ text. text.items ≡ line (codes "refused netlist NetlistShape " ++ decimal chip ++ codes " " ++ decimal net)) }
{
    let mut text = Vec::new(alloc);
    append(&mut text, b"refused netlist NetlistShape ")?;
    append_decimal(&mut text, chip)?;
    append(&mut text, b" ")?;
    append_decimal(&mut text, net)?;
    append(&mut text, b"\n")?;
    Ok(text)
}

/// The line that names a fault of a schedule.
fn schedule_text(alloc: Global, fault: SchedulesFault) -> Result<Vec<u8>, NoMemory>
    ensures { IfOk result (λ text. text.items ≡ line (codes "refused schedule " ++ schedule_words fault)) }
{
    let refused = b"refused schedule ".as_slice();
    match fault {
        SchedulesFault::NotJson => line(alloc, refused, b"NotJson", b""),
        SchedulesFault::Version => line(alloc, refused, b"Version", b""),
        SchedulesFault::Form {
            frame,
            slot,
            action,
        } => form_text(alloc, u64::from(frame), u64::from(slot), u64::from(action)),
    }
}

/// The line that names an action of a schedule that is not of the form.
fn form_text(alloc: Global, frame: u64, slot: u64, action: u64) -> Result<Vec<u8>, NoMemory>
    ensures { IfOk result (λ text. text.items ≡ line (codes "refused schedule ScheduleForm " ++ decimal frame ++ codes " " ++ decimal slot ++ codes " " ++ decimal action)) }
{
    let mut text = Vec::new(alloc);
    append(&mut text, b"refused schedule ScheduleForm ")?;
    append_decimal(&mut text, frame)?;
    append(&mut text, b" ")?;
    append_decimal(&mut text, slot)?;
    append(&mut text, b" ")?;
    append_decimal(&mut text, action)?;
    append(&mut text, b"\n")?;
    Ok(text)
}

/// The line that names a fault of a map.
fn map_text(alloc: Global, fault: MapsFault) -> Result<Vec<u8>, NoMemory>
    ensures { IfOk result (λ text. text.items ≡ line (codes "refused map " ++ map_words fault)) }
{
    let refused = b"refused map ".as_slice();
    match fault {
        MapsFault::NotJson => line(alloc, refused, b"NotJson", b""),
        MapsFault::Version => line(alloc, refused, b"Version", b""),
        MapsFault::Form { entry } => numbered(alloc, refused, b"MapForm ", u64::from(entry)),
    }
}

/// The line that names a fault of an opening.
fn opening_text(alloc: Global, fault: &OpeningsFault) -> Result<Vec<u8>, NoMemory>
    ensures { IfOk result (λ text. text.items ≡ line (codes "refused opening " ++ opening_words fault.now)) }
{
    let refused = b"refused opening ".as_slice();
    match fault {
        OpeningsFault::NotJson => line(alloc, refused, b"NotJson", b""),
        OpeningsFault::BadShape => line(alloc, refused, b"BadShape", b""),
        OpeningsFault::NoPort { name } => line(alloc, refused, b"NoPort ", name.bytes()),
        OpeningsFault::BadValue { name } => line(alloc, refused, b"BadValue ", name.bytes()),
        OpeningsFault::NoState { path } => line(alloc, refused, b"NoState ", path.bytes()),
        OpeningsFault::NoWord { path } => line(alloc, refused, b"NoWord ", path.bytes()),
    }
}

/// The line that names a fault of events.
fn events_text(alloc: Global, fault: EventsFault) -> Result<Vec<u8>, NoMemory>
    ensures { IfOk result (λ text. text.items ≡ line (codes "refused events " ++ events_words fault)) }
{
    let refused = b"refused events ".as_slice();
    match fault {
        EventsFault::BadLine { line: at } => numbered(alloc, refused, b"BadLine ", at),
        EventsFault::NoGroup { line: at } => numbered(alloc, refused, b"NoGroup ", at),
        EventsFault::NoPort { line: at } => numbered(alloc, refused, b"NoPort ", at),
        EventsFault::PortTwice { line: at } => numbered(alloc, refused, b"PortTwice ", at),
        EventsFault::BadValue { line: at } => numbered(alloc, refused, b"BadValue ", at),
    }
}

/// The line of a cycle.
fn cycle_text(alloc: Global, names: &[Text]) -> Result<Vec<u8>, NoMemory>
    ensures { IfOk result (λ text. text.items ≡ cycle_text names.now) }
{
    let mut text = Vec::new(alloc);
    append(&mut text, b"refused rank Cycle")?;
    'names: for name in names {
        append(&mut text, b" ")?;
        append(&mut text, name.bytes())?;
    }
    append(&mut text, b"\n")?;
    Ok(text)
}

/// The printed name of a fault.
fn fault_name(kind: TextFault) -> &'static [u8]
    ensures { result.now ≡ fault_name kind }
{
    match kind {
        TextFault::BadByte => b"BadByte ",
        TextFault::OpenComment => b"OpenComment ",
        TextFault::OpenAttribute => b"OpenAttribute ",
        TextFault::BadNumber => b"BadNumber ",
        TextFault::UnknownDigit => b"UnknownDigit ",
        TextFault::Directive => b"Directive ",
        TextFault::Expected => b"Expected ",
        TextFault::Unsupported => b"Unsupported ",
        TextFault::TooDeep => b"TooDeep ",
    }
}

/// The line that names a fault of the design text.
fn fault_text(alloc: Global, fault: &Fault) -> Result<Vec<u8>, NoMemory>
    ensures { IfOk result (λ text. text.items ≡ fault_text_of fault.now) }
{
    numbered(alloc, b"refused design ", fault_name(fault.kind), fault.at)
}
