//! Cutting a text into its tokens.

ghost use Rattle.std.specs.Prelude.{◌<◌, ◌^◌, All, IfOk, length};
ghost use Rattle.verilog_lex.specs.Reads.{Answers, EachTextHasOneAnswer, IsPartOf};

use crate::fault::LexFault;
use crate::piece::{Piece, first_piece};
use crate::token::{Token, Tokens};
use std::alloc::Global;

/// The tokens of a text of at most 4,294,967,295 bytes, or its first fault from the left.
///
/// White space, comments, attributes and directives are passed over. Undeclared names become wires
/// until `default_nettype none`, and again after `default_nettype wire` or `resetall`. The text of
/// each token is the part of the source from its start up to its end. Takes one pass, and 16 bytes
/// for each token, and 32 more for each sized constant.
pub fn tokens(alloc: Global, source: &[u8]) -> Result<Tokens, LexFault>
    requires { length source.now < 2 ^ 32 }
    ensures reads { Answers source.now result }
    ensures parts { IfOk result (All (IsPartOf source.now)) }
{
    let mut found = Tokens::new(alloc);
    let mut implicit = true;
    let mut at = 0;
    'pieces: while at < source.len() {
        match first_piece(&source[at..]) {
            Piece::Blank { bytes } => at += bytes,
            Piece::Setting {
                implicit: setting,
                bytes,
            } => {
                implicit = setting;
                at += bytes;
            }
            Piece::Lexeme { kind, start, bytes } => {
                found.push(Token {
                    kind,
                    start: (at + start) as u32,
                    end: (at + bytes) as u32,
                    implicit,
                })?;
                at += bytes;
            }
            Piece::Fault { cause, offset } => return Err(cause.fault((at + offset) as u32)),
        }
    }
    Ok(found)
}

/// Each text has tokens or a fault, and has them as only one thing. The law is its contract; there
/// is nothing to run.
pub fn each_text_has_one_answer()
    ensures { EachTextHasOneAnswer }
{}
