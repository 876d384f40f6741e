//! How the work of a command ends.

ghost use Rattle.std.specs.Prelude.{◌≡◌};
ghost use Rattle.emu_app.specs.Endings.{ending_of};

use crate::answer::Answer;
use case_texts::Unread;
use emu_io::StoreFault;

/// How the work of a command ends where no put failed and memory was there.
#[derive(Debug, Drop)]
pub enum Ending {
    /// It came to an answer, whose text is not yet printed.
    Answered(Answer),
    /// It printed a trace.
    Traced,
}

/// How a command ends that could not read its texts.
pub fn ending_of(why: Unread) -> Result<Ending, StoreFault>
    ensures { result ≡ ending_of why }
{
    match why {
        Unread::Refused(why) => Ok(Ending::Answered(Answer::Refused(why))),
        Unread::NoMemory => Err(StoreFault::NoMemory),
    }
}
