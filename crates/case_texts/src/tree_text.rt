//! Reading the design text into its tokens and tree.

ghost use Rattle.std.specs.Prelude.{◌<◌, ◌^◌, ◌≡◌, length};
ghost use Rattle.case_texts.specs.Faults.{byte_of, lex_refusal, parse_refusal};
ghost use Rattle.case_texts.specs.Forms.{AreTokens};
ghost use Rattle.case_texts.specs.Reading.{TreeMeans};

use crate::refusal::{Fault, Refusal, TextFault, Unread};
use std::alloc::Global;
use verilog_lex::{LexFault, Tokens, tokens};
use verilog_tree::{ParseFault, Source, parse};

/// The tokens of a text, and its tree.
#[derive(Debug, Drop)]
pub struct Parsed {
    pub tokens: Tokens,
    pub tree: Source,
}

/// The answer to a text that has this fault.
fn faulty(kind: TextFault, at: u64) -> Unread
    ensures { result ≡ Unread.Refused (Refusal.Faulty (record { kind = kind; at = at })) }
{
    Unread::Refused(Refusal::Faulty(Fault { kind, at }))
}

/// The answer to a text without tokens.
fn lex_refusal(fault: LexFault) -> Unread
    ensures { result ≡ lex_refusal fault }
{
    match fault {
        LexFault::BadByte { at } => faulty(TextFault::BadByte, u64::from(at)),
        LexFault::OpenComment { at } => faulty(TextFault::OpenComment, u64::from(at)),
        LexFault::OpenAttribute { at } => faulty(TextFault::OpenAttribute, u64::from(at)),
        LexFault::BadNumber { at } => faulty(TextFault::BadNumber, u64::from(at)),
        LexFault::UnknownDigit { at } => faulty(TextFault::UnknownDigit, u64::from(at)),
        LexFault::Directive { at } => faulty(TextFault::Directive, u64::from(at)),
        LexFault::NoMemory => Unread::NoMemory,
    }
}

/// The first byte of a token; past the last token, the number of the text's bytes.
pub(crate) fn byte_of(text: &[u8], tokens: &Tokens, place: u32) -> u64
    ensures { result ≡ byte_of text.now tokens.now place }
{
    if place < tokens.len() {
        u64::from(tokens.token(place).start)
    } else {
        text.len() as u64
    }
}

/// The answer to a text without a tree.
fn parse_refusal(text: &[u8], tokens: &Tokens, fault: ParseFault) -> Unread
    ensures { result ≡ parse_refusal text.now tokens.now fault }
{
    match fault {
        ParseFault::Expected { token } => {
            faulty(TextFault::Expected, byte_of(text, tokens, token))
        }
        ParseFault::Unsupported { token } => {
            faulty(TextFault::Unsupported, byte_of(text, tokens, token))
        }
        ParseFault::TooDeep { token } => faulty(TextFault::TooDeep, byte_of(text, tokens, token)),
        ParseFault::NoMemory => Unread::NoMemory,
    }
}

/// The tree of a text with these tokens.
fn parse_tokens(alloc: Global, text: &[u8], tokens: Tokens) -> Result<Parsed, Unread>
    requires { AreTokens text.now tokens }
    ensures { TreeMeans text.now result }
{
    match parse(alloc, &tokens) {
        Ok(tree) => Ok(Parsed { tokens, tree }),
        Err(fault) => Err(parse_refusal(text, &tokens, fault)),
    }
}

/// The tree of a text, or its first fault.
pub fn read_tree(alloc: Global, text: &[u8]) -> Result<Parsed, Unread>
    requires { length text.now < 2 ^ 32 }
    ensures { TreeMeans text.now result }
{
    match tokens(alloc, text) {
        Ok(tokens) => parse_tokens(alloc, text, tokens),
        Err(fault) => Err(lex_refusal(fault)),
    }
}
