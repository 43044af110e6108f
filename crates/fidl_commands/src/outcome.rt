//! What happens to a command, and the exit status that follows from it.
ghost use Rattle.std.specs.Prelude.{◌≡◌, is_ok, if◌then◌else◌};
ghost use Rattle.fidl_commands.specs.declared.outcome.Outcome.TheVariants as outcome;

use fidl_text::Failed;

/// What happened to a command.
#[derive(Clone, Copy, PartialEq, Eq, Debug, Drop)]
pub enum Outcome {
    /// The command did what it is for.
    Done,
    /// Help or the version was asked for, and printed.
    Asked,
    /// A table, a message, a text or a stream is refused.
    Refused,
    /// The command line is wrong.
    WrongLine,
    /// The table has no root of the name.
    NoRoot,
    /// The table has no protocol of the name.
    NoProtocol,
    /// The guide has no fault of the name, or of the stage and the number.
    NoFault,
    /// What an argument names holds no text of the argument's kind.
    WrongText,
    /// A file cannot be read.
    NoFile,
    /// The input of a service cannot be read.
    Unread,
    /// A writer failed.
    Unwritten,
    /// Memory ran out.
    NoMemory,
}

impl Outcome {
    ghost use Rattle.fidl_commands.specs.Status.{status_of};

    /// The exit status that follows from this.
    pub fn status(self) -> Status
        ensures { result ≡ status_of self }
    {
        match self {
            Outcome::Done | Outcome::Asked => Status::Done,
            Outcome::Refused => Status::Refused,
            Outcome::WrongLine
            | Outcome::NoRoot
            | Outcome::NoProtocol
            | Outcome::NoFault
            | Outcome::WrongText => Status::Usage,
            Outcome::NoFile | Outcome::Unread | Outcome::Unwritten => Status::FileFault,
            Outcome::NoMemory => Status::Memory,
        }
    }

    /// This where its text was written, and `Unwritten` where it was not.
    pub fn where_written(self, written: &Result<(), Failed>) -> Outcome
        ensures { result ≡ (if is_ok written.now then self else outcome.Unwritten) }
    {
        match written {
            Ok(()) => self,
            Err(Failed) => Outcome::Unwritten,
        }
    }
}

/// How the program ends (docs/program.md, "Statuses").
#[derive(Clone, Copy, PartialEq, Eq, Debug, Drop)]
pub enum Status {
    /// The command did what it is for.
    Done,
    /// A table, a message, a text or a stream is refused.
    Refused,
    /// The command line is wrong, or names a root, a protocol or a fault that there is not.
    Usage,
    /// A file or a stream cannot be read or written.
    FileFault,
    /// Memory ran out.
    Memory,
}

impl Status {
    ghost use Rattle.fidl_commands.specs.Status.{number_of};

    /// The number that the program exits with.
    pub fn number(self) -> u8
        ensures { result ≡ number_of self }
    {
        match self {
            Status::Done => 0,
            Status::Refused => 1,
            Status::Usage => 2,
            Status::FileFault => 3,
            Status::Memory => 4,
        }
    }
}
