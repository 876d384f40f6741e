//! What a command answers: a status and a text.

ghost use Rattle.std.specs.Prelude.{◌++◌, ◌≡◌, IfOk, OnOk};
ghost use Rattle.emu_app.specs.Printing.{accepted_text, frame_line, status_of, text_of};

use crate::status::Status;
use crate::verdict_text::rejected_text;
use case_texts::{Refusal, What, append, append_decimal, line, refusal_text};
use emu_io::{NoMemory, Text};
use emu_machine::{Frame, Place, Results, Rule};
use std::alloc::Global;

/// What a command found.
#[derive(Debug, Drop)]
pub enum Answer {
    /// The words are those of no command.
    Usage,
    /// These results are accepted.
    Accepted { results: Results },
    /// This rule of acceptance fails, at this least place, and all rules before it hold.
    Rejected { rule: Rule, place: Place },
    /// This text is longer than its limit.
    TooLarge(What),
    /// A text is refused.
    Refused(Refusal),
    /// The text of this name could not be fetched.
    ReadFault { name: Text },
}

impl Answer {
    /// How the command ends, where its text is written.
    pub fn status(&self) -> Status
        ensures { result ≡ status_of self.now }
    {
        match self {
            Answer::Usage => Status::Usage,
            Answer::Accepted { .. } => Status::Ok,
            Answer::Rejected { .. } => Status::Rejected,
            Answer::TooLarge(_) | Answer::Refused(_) => Status::Refused,
            Answer::ReadFault { .. } => Status::ReadFault,
        }
    }

    /// The text that the command prints.
    pub fn text(&self, alloc: Global) -> Result<Vec<u8>, NoMemory>
        ensures { IfOk result (λ text. text.items ≡ text_of self.now) }
    {
        match self {
            Answer::Usage => line(
                alloc,
                b"usage: emu check|compile|make|replay|settle",
                b"",
                b"",
            ),
            Answer::Accepted { results } => accepted_text(
                alloc,
                results.schedule().frames.as_slice(),
            ),
            Answer::Rejected { rule, place } => rejected_text(alloc, *rule, *place),
            Answer::TooLarge(what) => line(alloc, b"refused ", what.label(), b" TooLarge"),
            Answer::Refused(why) => refusal_text(alloc, why),
            Answer::ReadFault { name } => line(alloc, b"read fault ", name.bytes(), b""),
        }
    }
}

/// The line that says `accepted`, and a line for each frame.
fn accepted_text(alloc: Global, frames: &[Frame]) -> Result<Vec<u8>, NoMemory>
    ensures { IfOk result (λ text. text.items ≡ accepted_text frames.now) }
{
    let mut text = line(alloc, b"accepted", b"", b"")?;
    'frames: for frame in frames {
        append_frame(&mut text, frame)?;
    }
    Ok(text)
}

/// Puts the line of a frame at the end.
fn append_frame(text: &mut Vec<u8>, frame: &Frame) -> Result<(), NoMemory>
    ensures ok { OnOk result (text.new.items ≡ text.old.items ++ frame_line frame.now) }
{
    append(text, b"frame ")?;
    append(text, frame.group.bytes())?;
    append(text, b" ")?;
    append_decimal(text, frame.slots.len())?;
    append(text, b"\n")
}
