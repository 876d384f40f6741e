//! Reading the board.

ghost use Rattle.std.specs.Prelude.{◌≡◌};
ghost use Rattle.case_texts.specs.Faults.{board_refusal};
ghost use Rattle.case_texts.specs.Reading.{BoardMeans};

use crate::refusal::{BoardsFault, Refusal, Unread};
use board_model::{Board, BoardFault, read_board};
use std::alloc::Global;

/// The answer to a text that has this fault.
fn faulty(fault: BoardsFault) -> Unread
    ensures { result ≡ Unread.Refused (Refusal.Board fault) }
{
    Unread::Refused(Refusal::Board(fault))
}

/// The answer to a text of which the reader of boards tells this fault.
fn board_refusal(fault: BoardFault) -> Unread
    ensures { result ≡ board_refusal fault }
{
    match fault {
        BoardFault::NotJson => faulty(BoardsFault::NotJson),
        BoardFault::BadShape => faulty(BoardsFault::BadShape),
        BoardFault::Version => faulty(BoardsFault::Version),
        BoardFault::Limit => faulty(BoardsFault::Limit),
        BoardFault::BadWire { wire } => faulty(BoardsFault::BadWire { wire }),
        BoardFault::NoMemory => Unread::NoMemory,
    }
}

/// The board that a text stands for, or its first fault.
pub fn read_board_text(alloc: Global, text: &[u8]) -> Result<Board, Unread>
    ensures { BoardMeans text.now result }
{
    match read_board(alloc, text) {
        Ok(board) => Ok(board),
        Err(fault) => Err(board_refusal(fault)),
    }
}
