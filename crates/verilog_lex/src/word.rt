//! The reserved words.

ghost use Rattle.std.specs.Prelude.{◌≡◌, ◌<◌, ◌≤◌, length, map, position, bytes_eq, slice_get};
ghost use Rattle.verilog_lex.specs.Words.{Splits, reserved_words, word_kind};

use crate::bytes::byte_at;
use crate::token::TokenKind;

/// The reserved words; each stands among those with its first letter.
static RESERVED_WORDS: [&[u8]; 124] = [
    b"always",
    b"and",
    b"assign",
    b"automatic",
    b"begin",
    b"buf",
    b"bufif0",
    b"bufif1",
    b"case",
    b"casex",
    b"casez",
    b"cell",
    b"cmos",
    b"config",
    b"deassign",
    b"default",
    b"defparam",
    b"design",
    b"disable",
    b"edge",
    b"else",
    b"end",
    b"endcase",
    b"endconfig",
    b"endfunction",
    b"endgenerate",
    b"endmodule",
    b"endprimitive",
    b"endspecify",
    b"endtable",
    b"endtask",
    b"event",
    b"for",
    b"force",
    b"forever",
    b"fork",
    b"function",
    b"generate",
    b"genvar",
    b"highz0",
    b"highz1",
    b"if",
    b"ifnone",
    b"incdir",
    b"include",
    b"initial",
    b"inout",
    b"input",
    b"instance",
    b"integer",
    b"join",
    b"large",
    b"liblist",
    b"library",
    b"localparam",
    b"macromodule",
    b"medium",
    b"module",
    b"nand",
    b"negedge",
    b"nmos",
    b"nor",
    b"noshowcancelled",
    b"not",
    b"notif0",
    b"notif1",
    b"or",
    b"output",
    b"parameter",
    b"pmos",
    b"posedge",
    b"primitive",
    b"pull0",
    b"pull1",
    b"pulldown",
    b"pullup",
    b"pulsestyle_onevent",
    b"pulsestyle_ondetect",
    b"rcmos",
    b"real",
    b"realtime",
    b"reg",
    b"release",
    b"repeat",
    b"rnmos",
    b"rpmos",
    b"rtran",
    b"rtranif0",
    b"rtranif1",
    b"scalared",
    b"showcancelled",
    b"signed",
    b"small",
    b"specify",
    b"specparam",
    b"strong0",
    b"strong1",
    b"supply0",
    b"supply1",
    b"table",
    b"task",
    b"time",
    b"tran",
    b"tranif0",
    b"tranif1",
    b"tri",
    b"tri0",
    b"tri1",
    b"triand",
    b"trior",
    b"trireg",
    b"unsigned",
    b"use",
    b"uwire",
    b"vectored",
    b"wait",
    b"wand",
    b"weak0",
    b"weak1",
    b"while",
    b"wire",
    b"wor",
    b"xnor",
    b"xor",
];

/// For each letter the place of the first reserved word that begins with it or a later one; after
/// `z` the number of all.
static BUCKET_STARTS: [u8; 27] = [
    0, 4, 8, 14, 19, 32, 37, 39, 41, 50, 51, 51, 55, 58, 66, 68, 78, 78, 89, 99, 111, 114, 115,
    122, 124, 124, 124,
];

/// The word of a table at a place.
fn entry(table: &'static [&'static [u8]], place: u8) -> &'static [u8]
    requires { place < length table.now }
    ensures { slice_get (map (λ word. word.now) table.now) place ≡ Some result.now }
{
    table[place as usize]
}

/// The reserved word at a place.
fn reserved_word(place: u8) -> &'static [u8]
    requires { place < 124 }
    ensures { slice_get reserved_words place ≡ Some result.now }
{
    entry(&RESERVED_WORDS, place)
}

/// The place of the first reserved word that begins with a letter or a later one; the letter is
/// from `a` to `z`, or the byte after `z`.
fn bucket_start(letter: u8) -> u8
    requires low { 97 ≤ letter }
    requires high { letter ≤ 123 }
    ensures splits { Splits letter result reserved_words }
{
    BUCKET_STARTS[(letter - b'a') as usize]
}

/// The place of a word among the reserved words, if it is one.
fn reserved_place(word: &[u8]) -> Option<u32>
    ensures { result ≡ position (bytes_eq word.now) reserved_words }
{
    let letter = byte_at(word, 0);
    if !letter.is_ascii_lowercase() {
        return None;
    }
    // The names of nets mostly go on with a digit, and no reserved word does.
    let second = byte_at(word, 1);
    if !second.is_ascii_lowercase() {
        return None;
    }
    for place in bucket_start(letter)..bucket_start(letter + 1) {
        if word == reserved_word(place) {
            return Some(u32::from(place));
        }
    }
    None
}

/// What a word that is no escaped name is: a reserved word or a name.
pub(crate) fn word_kind(word: &[u8]) -> TokenKind
    ensures { result ≡ word_kind word.now }
{
    match reserved_place(word) {
        Some(place) => TokenKind::Keyword(place),
        None => TokenKind::Name,
    }
}
