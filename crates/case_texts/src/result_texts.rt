//! Reading the three texts of results.

ghost use Rattle.std.specs.Prelude.{◌≡◌, ◌<◌, ◌^◌, length};
ghost use Rattle.result_files.specs.ThreeTexts.{HasWrongToken};
ghost use Rattle.case_texts.specs.Faults.{netlist_lex_refusal};
ghost use Rattle.case_texts.specs.Results.{IsResultRefusal, ResultsMean, TokenIsWrong, WrongMeans};

use crate::refusal::{MapsFault, NetlistsFault, Refusal, SchedulesFault, Unread};
use crate::tree_text::byte_of;
use emu_machine::Results;
use result_files::{ResultFault, read_results};
use std::alloc::Global;
use verilog_lex::{LexFault, each_text_has_one_answer, tokens};

/// The results that a netlist, a schedule and a map stand for, or their first fault.
pub fn read_result_texts(
    alloc: Global,
    netlist: &[u8],
    schedule: &[u8],
    map: &[u8],
) -> Result<Results, Unread>
    requires { length netlist.now < 2 ^ 32 }
    ensures { ResultsMean netlist.now schedule.now map.now result }
{
    match read_results(alloc, netlist, schedule, map) {
        Ok(results) => Ok(results),
        Err(fault) => Err(result_refusal(alloc, netlist, fault)),
    }
}

/// The answer to a netlist that has this fault.
fn faulty_netlist(fault: NetlistsFault) -> Unread
    ensures { result ≡ Unread.Refused (Refusal.Netlist fault) }
{
    Unread::Refused(Refusal::Netlist(fault))
}

/// The answer to a schedule that has this fault.
fn faulty_schedule(fault: SchedulesFault) -> Unread
    ensures { result ≡ Unread.Refused (Refusal.Schedule fault) }
{
    Unread::Refused(Refusal::Schedule(fault))
}

/// The answer to a map that has this fault.
fn faulty_map(fault: MapsFault) -> Unread
    ensures { result ≡ Unread.Refused (Refusal.Map fault) }
{
    Unread::Refused(Refusal::Map(fault))
}

/// The answer to texts of which the reader of results tells this fault.
fn result_refusal(alloc: Global, netlist: &[u8], fault: ResultFault) -> Unread
    requires few { length netlist.now < 2 ^ 32 }
    requires wrong { TokenIsWrong netlist.now fault }
    ensures { IsResultRefusal netlist.now fault result }
{
    match fault {
        ResultFault::NetlistLex(fault) => netlist_lex_refusal(fault),
        ResultFault::NetlistForm { token } => wrong_token(alloc, netlist, token),
        ResultFault::NetlistShape { chip, net } => {
            faulty_netlist(NetlistsFault::Shape { chip, net })
        }
        ResultFault::ScheduleNotJson => faulty_schedule(SchedulesFault::NotJson),
        ResultFault::ScheduleVersion => faulty_schedule(SchedulesFault::Version),
        ResultFault::ScheduleForm {
            frame,
            slot,
            action,
        } => faulty_schedule(SchedulesFault::Form {
            frame,
            slot,
            action,
        }),
        ResultFault::MapNotJson => faulty_map(MapsFault::NotJson),
        ResultFault::MapVersion => faulty_map(MapsFault::Version),
        ResultFault::MapForm { entry } => faulty_map(MapsFault::Form { entry }),
        ResultFault::NoMemory => Unread::NoMemory,
    }
}

/// The answer to a netlist without tokens.
fn netlist_lex_refusal(fault: LexFault) -> Unread
    ensures { result ≡ netlist_lex_refusal fault }
{
    match fault {
        LexFault::BadByte { at } => faulty_netlist(NetlistsFault::BadByte { at: u64::from(at) }),
        LexFault::OpenComment { at } => {
            faulty_netlist(NetlistsFault::OpenComment { at: u64::from(at) })
        }
        LexFault::OpenAttribute { at } => {
            faulty_netlist(NetlistsFault::OpenAttribute { at: u64::from(at) })
        }
        LexFault::BadNumber { at } => {
            faulty_netlist(NetlistsFault::BadNumber { at: u64::from(at) })
        }
        LexFault::UnknownDigit { at } => {
            faulty_netlist(NetlistsFault::UnknownDigit { at: u64::from(at) })
        }
        LexFault::Directive { at } => {
            faulty_netlist(NetlistsFault::Directive { at: u64::from(at) })
        }
        LexFault::NoMemory => Unread::NoMemory,
    }
}

/// The answer to a netlist of which this token is the first that cannot stand there. Its tokens are read once
/// more, for the place of that one.
fn wrong_token(alloc: Global, netlist: &[u8], token: u32) -> Unread
    requires few { length netlist.now < 2 ^ 32 }
    requires wrong { HasWrongToken netlist.now token }
    ensures { WrongMeans netlist.now result }
{
    each_text_has_one_answer();
    match tokens(alloc, netlist) {
        Ok(tokens) => faulty_netlist(NetlistsFault::Form {
            at: byte_of(netlist, &tokens, token),
        }),
        // The netlist has tokens, so that memory alone can be wanting.
        Err(_) => Unread::NoMemory,
    }
}
