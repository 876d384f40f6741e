//! How a command ends.

ghost use Rattle.std.specs.Prelude.{◌≡◌};
ghost use Rattle.emu_app.specs.Status.{code};

/// How a command ended. The numbers are the exit statuses of the program.
#[derive(Clone, Copy, Debug, Drop, PartialEq, Eq)]
pub enum Status {
    /// The command did its work; for `check`, the results are accepted.
    Ok = 0,
    /// The words are those of no command.
    Usage = 1,
    /// A text is too long, or is not of its form.
    Refused = 2,
    /// A rule of acceptance fails.
    Rejected = 3,
    /// The design does not fit the board.
    NoFit = 4,
    /// A text could not be fetched.
    ReadFault = 5,
    /// The printed text could not be written.
    WriteFault = 6,
    /// No memory was left.
    NoMemory = 7,
}

impl Status {
    /// The exit status of the program.
    pub fn code(self) -> u8
        ensures { result ≡ code self }
    {
        self as u8
    }
}
